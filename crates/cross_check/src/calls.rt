// One case of each kind of event on the clock, run by both implementations.
use crate::devices::{rate, to_tick};
use crate::first::{same_event, same_start, same_ticks};
use crate::form::ROW;
use crate::many::{Answer, event, refusal_of, state_after, ticks};
use crate::random::{at_edge, catch_up_row, draw, row, state};
use crate::refusals::Refusal;
use crate::rules::{State, begin, fresh, gathered, times};
use crate::signed::pick;

// The refusal that the second implementation gave, and whether the first gave the same answer; of a list, how
// many offsets it accepted on a clock with an earlier update: neither the first of the list, nor the first
// after a setting; of a clock at an edge, whether whole units that add up decide its answer, up or down.
#[derive(Clone, Copy)]
pub(crate) struct Verdict {
    pub(crate) refusal: Option<Refusal>,
    pub(crate) same: bool,
    pub(crate) offsets: u64,
    pub(crate) up: bool,
    pub(crate) down: bool,
}

impl Verdict {
    // Of a case that is neither.
    pub(crate) fn new(refusal: Option<Refusal>, same: bool) -> Self {
        Verdict {
            refusal,
            same,
            offsets: 0,
            up: false,
            down: false,
        }
    }
}

// What both answer to an event.
fn compared(s: State, row: &[u64; ROW]) -> Verdict {
    let m = event(s, row);
    Verdict::new(refusal_of(m), same_event(s, row, m))
}

// An event of a code, on a clock that need not be sound.
pub(crate) fn event_on_any(case: u64, code: u64) -> Verdict {
    compared(state(case), &row(case, code))
}

// A catch-up, on a clock that need not be sound: once in four early in its second, nearly all its ticks from
// the end.
pub(crate) fn catch_up(case: u64) -> Verdict {
    let mut s = state(case);
    if draw(case, 84) % 4 == 0 {
        s.micros %= 4096;
    }
    compared(s, &row(case, 4))
}

// A catch-up of as many ticks as may be, past every rollover: half of them from less than 300 seconds before
// the last, of kind 1 less than 75.
pub(crate) fn long_catch_up(case: u64) -> Verdict {
    let mut s = state(case);
    let v = draw(case, 85);
    if v % 2 == 0 {
        let before = to_tick(s.kind, v / 2 % 76800);
        s.seconds = 4294967295_u64.saturating_sub(before);
    }
    compared(s, &catch_up_row(65536 - v / 1024 % 2, 0))
}

// Whether the microseconds that an event of ticks comes to, or its refusal, would be others had no part been
// added.
fn unit_decides(s: State, row: &[u64; ROW]) -> bool {
    let without = State {
        remainder: 0,
        leftover: 0,
        ..s
    };
    let a = event(s, row);
    let b = event(without, row);
    a.is_ok() != b.is_ok()
        || refusal_of(a) != refusal_of(b)
        || state_after(s, a).micros != state_after(without, b).micros
}

// The ticks of a clock at an edge: one by its own call or by a catch-up, more by a catch-up.
pub(crate) fn edge_ticks(case: u64) -> Verdict {
    let e = at_edge(case);
    let s = e.state;
    let n = draw(case, 97);
    let mut row = catch_up_row(e.ticks, n / 2 % 2);
    if e.ticks == 1 && n % 4 < 2 {
        row[0] = 0;
    }
    let decides = unit_decides(s, &row);
    let side = gathered(s);
    Verdict {
        up: decides && !side.negative,
        down: decides && side.negative,
        ..compared(s, &row)
    }
}

// About 1,000 of 1,024 are ticks, half of the others requests, and a quarter catch-ups.
fn some_code(case: u64) -> u64 {
    let v = draw(case, 81);
    match v / 4096 % 8 {
        _ if 96 <= v % 4096 => 0,
        0 => 1,
        3 => 3,
        1 | 2 => 4,
        _ => 2,
    }
}

// What a caller begins with, for each byte that a kind could be.
pub(crate) fn start(case: u64) -> Verdict {
    let kind = case % 256;
    let a = begin(kind);
    Verdict::new(a.err(), same_start(kind, a))
}

// The ticks after which 62 to 66 rollovers lie behind the clock's last offset, or about as many: the next one
// is accepted from 64 on. Of kind 1 one call makes about 64 of them at most.
fn about_64(s: State, v: u64) -> [u64; ROW] {
    let wanted = (62 + v % 5).saturating_sub(s.since);
    catch_up_row(times(wanted, rate(s.kind)).min(65536), 0)
}

// An event of a list, on the clock that it meets. Three in four of the catch-ups lead to where the next
// offset is accepted, or just not.
fn some_event(case: u64, s: State) -> [u64; ROW] {
    let code = some_code(case);
    let v = draw(case, 89);
    if code == 4 && v % 4 < 3 {
        about_64(s, v / 4)
    } else {
        row(case, code)
    }
}

// Whether an event was an offset that is accepted on a clock with an earlier update.
fn offset_again(s: State, row: &[u64; ROW], m: Answer) -> bool {
    row[0] == 2 && row[1] % 2 == 1 && s.flag == 1 && m.is_ok()
}

// A list of 5,000 events from a fresh clock, of one kind and the other in turn. Its refusal is the last one
// that an event gave.
pub(crate) fn list(case: u64) -> Verdict {
    let a = begin(case % 2);
    let mut s = a.unwrap_or(fresh(0));
    let mut v = Verdict::new(None, same_start(case % 2, a));
    for k in 0..5000 {
        let row = some_event(case % 65536 * 5000 + k, s);
        let m = event(s, &row);
        v.same = v.same && same_event(s, &row, m);
        v.refusal = m.err().or(v.refusal);
        v.offsets = v
            .offsets
            .saturating_add(u64::from(offset_again(s, &row, m)));
        s = state_after(s, m);
    }
    v
}

// Up to 700 ticks in one call, half of the time up to 2,800, of a clock that need not be sound.
pub(crate) fn many_ticks(case: u64) -> Verdict {
    let s = state(case);
    let v = draw(case, 83);
    let n = pick(v % 2 == 0, v / 2 % 2801, v / 2 % 701);
    let a = ticks(s, n);
    Verdict::new(refusal_of(a), same_ticks(s, n, a))
}
