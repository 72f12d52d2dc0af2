// Reading a number at a place of some bytes.
ghost use Rattle.std.specs.Prelude.{◌≡◌, ◌*◌, ◌<◌};
ghost use Rattle.number.specs.Form.{group};
ghost use Rattle.number.specs.Reading.{number_at, told};
ghost use Rattle.number.specs.Inner.{later_at, onto, ended_of};

use crate::form::{GROUP, MORE};
use state::Refusal;

// The least byte that says that more follows. Widened by `as`, since a constant calls no function.
const SAYS_MORE: u64 = MORE as u64;

// What a unit of each group after the first is worth.
const SECOND_GROUP: u64 = GROUP as u64;

const THIRD_GROUP: u64 = SECOND_GROUP * SECOND_GROUP;

const FOURTH_GROUP: u64 = SECOND_GROUP * THIRD_GROUP;

const FIFTH_GROUP: u64 = SECOND_GROUP * FOURTH_GROUP;

// The top bits of two bytes that say more.
const TOP_BITS: u64 = SAYS_MORE + SECOND_GROUP * SAYS_MORE;

// A number that was read, below 2^35, and the place after it.
#[derive(Clone, Copy, Debug, PartialEq, Eq)]
pub struct Number {
    pub value: u64,
    pub next: usize,
}

// A number of more than one byte that ends before `next`; `unit` is what a unit of its last group is worth.
// Below that the last group is 0, and the form not the shortest.
fn ended(value: u64, unit: u64, next: usize) -> Result<Number, Refusal>
    ensures { told result ≡ ended_of value unit next }
{
    if value < unit {
        return Err(Refusal::Form);
    }
    Ok(Number { value, next })
}

// The number that starts at `at`, without a loop: most numbers have one or two bytes, and for the others
// too straight groups take less. Bytes and place are two: a struct of both would be taken apart again at
// each call.
pub fn read(bytes: &[u8], at: usize) -> Result<Number, Refusal>
    ensures { told result ≡ number_at bytes.now at }
{
    let Some(&b0) = bytes.get(at) else {
        return Err(Refusal::Ended);
    };
    let b0 = u64::from(b0);
    let p = at + 1;
    if b0 < SAYS_MORE {
        return Ok(Number { value: b0, next: p });
    }
    let Some(&b1) = bytes.get(p) else {
        return Err(Refusal::Ended); // one byte, which says that more follows
    };
    let b1 = u64::from(b1);
    if SAYS_MORE <= b1 {
        return read_long(bytes, p + 1, b0 + SECOND_GROUP * b1 - TOP_BITS);
    }
    if b1 == 0 {
        return Err(Refusal::Form);
    }
    Ok(Number {
        value: b0 + SECOND_GROUP * b1 - SAYS_MORE,
        next: p + 1,
    })
}

// The rest of a number of three bytes or more, from its third byte on; `low` is what the first two hold.
fn read_long(bytes: &[u8], at: usize, low: u64) -> Result<Number, Refusal>
    requires { low < group * group }
    ensures { told result ≡ onto low (group * group) (later_at 3 bytes.now at) }
{
    let Some(&b2) = bytes.get(at) else {
        return Err(Refusal::Ended);
    };
    let b2 = u64::from(b2);
    let v3 = low + THIRD_GROUP * b2;
    if b2 < SAYS_MORE {
        return ended(v3, THIRD_GROUP, at + 1);
    }
    let p = at + 1;
    let Some(&b3) = bytes.get(p) else {
        return Err(Refusal::Ended);
    };
    let b3 = u64::from(b3);
    // The top bit of a byte is worth a unit of the next group, and none of the number.
    let v4 = v3 + FOURTH_GROUP * b3 - FOURTH_GROUP;
    let q = p + 1;
    if b3 < SAYS_MORE {
        return ended(v4, FOURTH_GROUP, q);
    }
    let Some(&b4) = bytes.get(q) else {
        return Err(Refusal::Ended);
    };
    let b4 = u64::from(b4);
    if SAYS_MORE <= b4 {
        return Err(Refusal::Form); // whether bytes follow or not
    }
    ended(v4 + FIFTH_GROUP * b4 - FIFTH_GROUP, FIFTH_GROUP, q + 1)
}
