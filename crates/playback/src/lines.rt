// The lines that a run writes, each into a lent buffer that has room for it. The buffer and the place in it
// are two parameters, and no writer holds them: each of its methods would have to say which buffer it still
// holds, and that there is room.
ghost use Rattle.std.specs.Prelude.{◌≡◌, true, ◌++◌, ◌+◌, ◌≤◌, ◌<◌, length};
ghost use Rattle.state.specs.Refusal.{refusal_number};
ghost use Rattle.state.specs.State.{in_range};
ghost use Rattle.label.specs.Label.{digit as Label·digit};
ghost use Rattle.playback.specs.Lines.{decimal, log_line, print_line, cell_line};
ghost use Rattle.playback.specs.Run.{longest_history};
ghost use Rattle.playback.specs.Filling.{longest_line};
ghost use Rattle.playback.specs.Inner.{Puts, refusal_line};

use clock::Clock;
use state::Refusal;

// The length of a label, in bytes.
const LABEL: usize = 20;

// Writes a text from `at` on, and gives the place after it.
fn put(out: &mut [u8], at: usize, text: &[u8]) -> usize
    requires { at + length text.now ≤ length out.old }
    ensures { Puts text.now out.old at out.new result }
{
    out[at..at + text.len()].copy_from_slice(text);
    at + text.len()
}

// The last decimal digit of n, in ASCII; by hand, as `put_decimal`, which is made of it.
fn digit(n: u32) -> u8
    ensures { result ≡ Label·digit n }
{
    b'0' + (n % 10) as u8
}

// Writes n in decimal. By hand, in the buffer itself: the library's text of a number is a copy of its own, to
// be copied again.
fn put_decimal(out: &mut [u8], at: usize, n: u32) -> usize
    requires { at + length (decimal n) ≤ length out.old }
    ensures { Puts (decimal n) out.old at out.new result }
{
    if n < 10 {
        out[at] = digit(n);
        return at + 1;
    }
    let p = put_decimal(out, at, n / 10);
    out[p] = digit(n);
    p + 1
}

// Writes a text and then a number.
fn put_number(out: &mut [u8], at: usize, text: &[u8], n: u32) -> usize
    requires { at + (length text.now + length (decimal n)) ≤ length out.old }
    ensures { Puts (text.now ++ decimal n) out.old at out.new result }
{
    let p = put(out, at, text);
    put_decimal(out, p, n)
}

// `refused N`, the number that an answer holds; nothing where it is 0
pub(crate) fn put_refused(out: &mut [u8], at: usize, n: u8) -> usize
    requires { at + longest_line ≤ length out.old }
    ensures { Puts (refusal_line n) out.old at out.new result }
{
    if n == 0 {
        return at;
    }
    let end = put_number(out, at, b"refused ", n as u32);
    put(out, end, b"\n")
}

// `log N at P`
pub(crate) fn put_log(out: &mut [u8], at: usize, refusal: Refusal, p: u32) -> usize
    requires { (at + longest_line ≤ length out.old) × (p ≤ longest_history) }
    ensures puts { Puts (log_line (refusal_number refusal) p) out.old at out.new result }
    ensures small { length (log_line (refusal_number refusal) p) ≤ longest_line }
{
    let n = refusal.number();
    let place = put_number(out, at, b"log ", n as u32);
    let end = put_number(out, place, b" at ", p);
    put(out, end, b"\n")
}

// A print: the longest line, of 30 bytes.
pub(crate) fn put_print(out: &mut [u8], at: usize, c: Clock) -> usize
    requires { (at + longest_line ≤ length out.old) × (in_range c ≡ true) }
    ensures { Puts (print_line c) out.old at out.new result }
{
    // The clock is in range, and there is room: nothing is refused.
    let _ = label::write(c, &mut out[at..]);
    let us = c.micros.0;
    let rest = [
        b' ',
        digit(us / 100000),
        digit(us / 10000),
        digit(us / 1000),
        digit(us / 100),
        digit(us / 10),
        digit(us),
        b' ',
        digit(c.status as u32),
        b'\n',
    ];
    put(out, at + LABEL, &rest)
}

// `QQ N M`, a quarter-hour of the summary; nothing where N is 0
pub(crate) fn put_quarter(
    out: &mut [u8],
    at: usize,
    quarter: u32,
    count: u16,
    largest: u32,
) -> usize
    requires { at + longest_line ≤ length out.old }
    ensures puts { Puts (cell_line quarter count largest) out.old at out.new result }
    ensures largest_len_bound { length (cell_line quarter count largest) ≤ longest_line }
{
    if count == 0 {
        return at;
    }
    let head = [digit(quarter / 10), digit(quarter), b' '];
    let next = put_number(out, at, &head, count as u32);
    let end = put_number(out, next, b" ", largest);
    put(out, end, b"\n")
}
