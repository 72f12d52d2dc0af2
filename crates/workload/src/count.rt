ghost use Rattle.std.specs.Prelude.{◌≡◌};
ghost use Rattle.workload.specs.Count.{count_of};

// The number that a line's last word says in digits; of a longer one, the last eighteen digits.
pub fn count_of(line: &[u8]) -> u64
    ensures { result ≡ count_of line.now }
{
    line.iter().fold(0, |n: u64, b: &u8| match *b {
        b' ' => 0,
        b'0'..=b'9' => n % 100000000000000000 * 10 + u64::from(*b - b'0'),
        _ => n,
    })
}
