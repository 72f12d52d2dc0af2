// One history, run by both implementations.
use crate::calls::Verdict;
use crate::first::{same_begun, same_replay};
use crate::form::{Draft, ROW};
use crate::random;
use crate::random::{Bytes, draw, row, short_row};
use crate::refusals::Refusal;
use crate::replay::{Output, Replayed, begun, caught_up, mask_of};
use crate::rules::{State, fresh};
use crate::signed::pick;
use crate::summaries::{near_border, some_offset};

// Mostly up to 600 ticks, once in 8 up to 4,096, and once in 32 about 64 seconds of them, after which an
// offset is accepted again.
fn tick_count(case: u64) -> u64 {
    let v = draw(case, 600);
    match v % 32 {
        1 => 16300 + v / 32 % 200,
        0 | 8 | 16 | 24 => v / 8 % 4097,
        _ => v / 8 % 600,
    }
}

// An event of a history. Small offsets and statuses alone are frequent: they lead a clock to its leap
// seconds.
fn some_event(case: u64) -> [u64; ROW] {
    let kind = draw(case, 601) % 8;
    let v = draw(case, 601) / 8;
    match kind {
        0 | 1 => short_row(0, tick_count(case), 0),
        2 | 3 => row(case, 3),
        4 => row(case, 1),
        5 => short_row(2, 1, v % 4000),
        6 => {
            let mut row = short_row(2, 16, 0);
            row[6] = v % 4;
            row
        }
        _ => row(case, pick(v % 16 == 0, v / 16 % 256, 2)),
    }
}

// Mostly settings near the borders of a few quarter-hours and offsets, which a setting lets be accepted.
fn offset_event(case: u64, plan: u64) -> [u64; ROW] {
    let v = draw(case, 603);
    match v % 8 {
        0..=2 => short_row(1, near_border(plan % 4, plan / 4, v / 8), 0),
        3..=6 => short_row(2, 1, some_offset(v / 8)),
        _ => some_event(case),
    }
}

// Event k of a history. Half of them begin with code 4, which asks for the summary; once in 16 it stands
// later. Half of them are about offsets.
fn planned_event(case: u64, k: u64, plan: u64) -> [u64; ROW] {
    let asks = k == 0 && plan % 2 == 0;
    if asks || k == plan / 64 % 256 {
        short_row(4, 0, 0)
    } else if plan % 4 < 2 {
        offset_event(case, plan / 65536)
    } else {
        some_event(case)
    }
}

// As many of sixteen events as 64 bytes hold, once in 16 only one of them; some with a code that is none;
// whole or damaged.
fn some_history(case: u64) -> Bytes {
    let plan = draw(case, 604);
    let count = if plan / 4 % 16 == 0 { 1 } else { 16 };
    let mut d = Draft {
        text: random::some_bytes(case),
        next: 0,
    };
    for k in 0..count {
        let row = planned_event(case % 1048576 * 16 + k, k, plan);
        let before = d.next;
        d.put_row(&row, mask_of(&row));
        if 64 < d.next {
            d.next = before;
        }
    }
    Bytes::new(d.text, d.next).damaged(case)
}

// A clock in an inserted second.
fn in_leap(v: u64) -> State {
    State {
        seconds: v % 4 * 86400 + 86399,
        status: 3,
        ..fresh(v % 2)
    }
}

// The clock that a run begins with: mostly the fresh one of kind 0, which a replay begins with, else any of
// either kind, or one in an inserted second.
fn some_start(case: u64, v: u64) -> State {
    match v % 8 {
        0 => random::state(case),
        1 => in_leap(v / 8),
        _ => fresh(0),
    }
}

// A history of up to 64 bytes. Once in 16 the buffer has room for no line, once in 16 the run has ended
// before, which is no refusal with any buffer, and once in 16 it begins with a summary that is not empty.
pub(crate) fn replay(case: u64) -> Verdict {
    let history = some_history(case);
    let v = draw(case, 640);
    let short = v % 16 == 0;
    let s = some_start(case, v / 16);
    let before = pick(v / 65536 % 16 == 0, v / 1048576, 0);
    let start = begun(s, history.lent(), before);
    let whole = caught_up(start, None, &mut Output::new());
    let from = Replayed {
        over: v / 128 % 16 == 0,
        ..begun(s, whole.bytes, before)
    };
    let refusal = if from.over {
        None
    } else if short {
        Some(Refusal::Room)
    } else {
        whole.refusal
    };
    let room = pick(short, v / 2048 % 30, 30 + v / 2048 % 35) as usize;
    Verdict::new(refusal, same_replay(&from, room))
}

// Both runs over a long history, from the fresh clock.
fn same_long(history: &[u8], case: u64) -> bool {
    let from = begun(fresh(0), history, 0);
    let room = (30 + case % 35) as usize;
    same_begun(&from) && same_replay(&from, room)
}

// A history of 65,536 or 65,537 bytes: a code that is none; or code 4, which asks for the summary, and then a
// code that is none there, at once or after an offset of 2 us.
pub(crate) fn long(case: u64) -> Verdict {
    let fill = (4 + case / 4 % 2) as u8;
    let mut bytes = [fill; 65537];
    bytes[1] = (2 + case / 2 % 2 * 2) as u8;
    bytes[2] = 1;
    if case % 2 == 0 {
        let same = same_long(&bytes[..65536], case);
        return Verdict::new(Some(Refusal::Field), same);
    }
    Verdict::new(Some(Refusal::Beyond), same_long(&bytes, case))
}
