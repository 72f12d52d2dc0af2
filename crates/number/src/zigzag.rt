// The mapping of signed numbers to numbers, and back.
ghost use Rattle.std.specs.Prelude.{◌≡◌};
ghost use Rattle.number.specs.Mapping.{mapped, unmapped};

// The number that a signed state field is written as. A function and not a conversion of the type: only a
// record or an event writes a signed number so.
pub fn map(v: i32) -> u32
    ensures { result ≡ mapped v }
{
    if v < 0 {
        (-1 - 2 * (v as i64)) as u32
    } else {
        2 * (v as u32)
    }
}

// The signed number that n stands for. A decoded number may be wider than any field: 64 bits, so that nothing
// is cut before it is judged.
pub fn unmap(n: u64) -> i64
    ensures { result ≡ unmapped n }
{
    if n % 2 == 0 {
        (n / 2) as i64
    } else {
        -1 - ((n / 2) as i64)
    }
}
