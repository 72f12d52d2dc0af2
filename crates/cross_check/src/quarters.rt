// Document 02's quarter-hours, a second time: every accepted offset is kept with the date and time that the
// clock's label has before the request, and a quarter-hour is worked out afterwards from all of them, by the
// hour and minute that the labels say.
use crate::dates::clock_stamp;
use crate::form::ROW;
use crate::rules::{State, times};
use crate::signed::{Signed, pick};
use std::array;

// The quarter-hours of a day.
pub(crate) const QUARTERS: usize = 96;

// The most offsets that are kept. No list and no history here has more: an offset takes three bytes of a
// history.
const KEPT: usize = 32;

// An accepted offset: the fourteen digits of the label before it, and the offset, mapped.
#[derive(Clone, Copy)]
struct Offset {
    stamp: u64,
    mapped: u64,
}

// The accepted offsets of a list, in its order, the free places last, in a fixed array, since no program here
// has a heap; and what stood in the quarter-hours before the list, which is nothing for 0.
#[derive(Clone, Copy)]
pub(crate) struct Taken {
    offsets: [Option<Offset>; KEPT],
    before: u64,
}

// Before the first event.
pub(crate) fn none_taken(before: u64) -> Taken {
    Taken {
        offsets: [None; KEPT],
        before,
    }
}

// The offsets after an event on a clock, which was accepted or refused.
pub(crate) fn taken_after(t: Taken, s: State, row: &[u64; ROW], accepted: bool) -> Taken {
    let mut next = t;
    if row[0] == 2 && row[1] % 2 == 1 && accepted {
        if let Some(free) = next.offsets.iter().position(|place| place.is_none()) {
            next.offsets[free] = Some(Offset {
                stamp: clock_stamp(s),
                mapped: row[2],
            });
        }
    }
    next
}

// How many offsets there are in a quarter-hour, at most 65,535, and the largest size of one (us).
#[derive(Clone, Copy)]
pub(crate) struct Quarter {
    pub(crate) count: u64,
    pub(crate) largest: u64,
}

// What stood in a quarter-hour before a list: often nothing, or a count that is about to stop, with a size
// that is mostly one of an offset.
fn stood(before: u64, quarter: u64) -> Quarter {
    let v = times(before, quarter.saturating_add(1));
    let n = v / 8;
    let count = match v % 8 {
        1 | 2 => 65535 - n % 3,
        3 => n % 65536,
        4 | 5 => n % 3,
        _ => 0,
    };
    Quarter {
        count,
        largest: pick(n % 16 == 15, 4294967295_u64.saturating_sub(n), n % 128000),
    }
}

// Whether a label's hour and minute lie in a quarter-hour of the day.
fn lies_in(stamp: u64, quarter: u64) -> bool {
    let first = quarter % 128 / 4 * 100 + quarter % 4 * 15;
    let minute = stamp / 100 % 10000;
    first <= minute && minute < first + 15
}

// A quarter-hour after a list.
pub(crate) fn quarter_of(t: &Taken, quarter: u64) -> Quarter {
    let mut q = stood(t.before, quarter);
    for offset in t.offsets.iter().map_while(|place| *place) {
        if lies_in(offset.stamp, quarter) {
            q.count = q.count.saturating_add(1).min(65535);
            q.largest = q.largest.max(Signed::unmapped(offset.mapped).size);
        }
    }
    q
}

// All quarter-hours after a list.
pub(crate) fn afresh(t: &Taken) -> [Quarter; QUARTERS] {
    array::from_fn(|k| quarter_of(t, k as u64))
}
