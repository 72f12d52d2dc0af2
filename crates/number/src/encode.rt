// Writing numbers into a lent buffer.
ghost use Rattle.std.specs.Prelude.{◌≡◌, ◌+◌, ◌≤◌, leb, length};
ghost use Rattle.std.proofs.lemmas.List.Edits.{sets};
ghost use Rattle.number.specs.Form.{bytes_of, bytes_of_all};
ghost use Rattle.number.specs.Writing.{Writes};

use crate::form::{GROUP, MORE, MOST_BYTES};
use state::Refusal;

// A number below these takes no more than one, two, three and four bytes.
const BELOW_1: u32 = GROUP;

const BELOW_2: u32 = GROUP * BELOW_1;

const BELOW_3: u32 = GROUP * BELOW_2;

const BELOW_4: u32 = GROUP * BELOW_3;

// How many bytes n is written in.
#[tactic(auto, using(crate::proofs::Sizes::size_table))]
pub fn size(n: u32) -> usize
    ensures { result ≡ length (bytes_of n) }
{
    match n {
        0..BELOW_1 => 1,
        BELOW_1..BELOW_2 => 2,
        BELOW_2..BELOW_3 => 3,
        BELOW_3..BELOW_4 => 4,
        BELOW_4.. => MOST_BYTES,
    }
}

// Writes n from `at` on, where there is room for it, and gives the place after it. The loop ends with the
// number and does not go over the buffer: `p` is the place that the next byte takes.
fn place(buf: &mut [u8], at: usize, n: u32) -> usize
    requires { at + length (bytes_of n) ≤ length buf.old }
    ensures { (result ≡ at + length (bytes_of n)) × (buf.new ≡ sets buf.old at (bytes_of n)) }
{
    let mut rest = n;
    let mut p = at;
    while GROUP <= rest {
        buf[p] = (MORE + rest % GROUP) as u8;
        rest = rest / GROUP;
        p += 1;
    }
    buf[p] = rest as u8;
    p + 1
}

// Writes n from `at` on, and gives the place after it; every other byte stays. With too little room every
// byte stays, and the refusal is `Room`.
pub fn write(buf: &mut [u8], at: usize, n: u32) -> Result<usize, Refusal>
    ensures { Writes buf.old buf.new at (bytes_of n) result }
{
    let k = size(n);
    let len = buf.len();
    if len < k || len - k < at {
        return Err(Refusal::Room);
    }
    Ok(place(buf, at, n))
}

// Whether the numbers are written in at most `room` bytes.
fn fit_in(ns: &[u32], room: usize) -> bool
    ensures { result ≡ leb (length (bytes_of_all ns.now)) room }
{
    // No number has more than five bytes: where there is room for so many, they need not be counted.
    if ns.len() <= room / MOST_BYTES {
        return true;
    }
    let mut left = room;
    for &n in ns {
        let k = size(n);
        if left < k {
            return false;
        }
        left -= k;
    }
    true
}

// Writes the numbers one after the other from `at` on, where there is room for them, and gives the place
// after them.
fn place_all(buf: &mut [u8], at: usize, ns: &[u32]) -> usize
    requires { at + length (bytes_of_all ns.now) ≤ length buf.old }
    ensures { (result ≡ at + length (bytes_of_all ns.now)) × (buf.new ≡ sets buf.old at (bytes_of_all ns.now)) }
{
    let mut p = at;
    for &n in ns {
        p = place(buf, p, n);
    }
    p
}

// Writes all the numbers, one after the other, from `at` on, and gives the place after them; every other
// byte stays. With too little room for all of them every byte stays, and the refusal is `Room`.
pub fn write_all(buf: &mut [u8], at: usize, ns: &[u32]) -> Result<usize, Refusal>
    ensures { Writes buf.old buf.new at (bytes_of_all ns.now) result }
{
    let len = buf.len();
    if len < at || !fit_in(ns, len - at) {
        return Err(Refusal::Room);
    }
    Ok(place_all(buf, at, ns))
}
