// One list of events with a summary that is moved along, run by both implementations.
use crate::calls::Verdict;
use crate::first::{carried_from, carried_past, same_carried};
use crate::form::ROW;
use crate::many::event;
use crate::quarters::{none_taken, taken_after};
use crate::random::{draw, row, short_row, state};
use crate::rules::{State, fresh};
use crate::signed::pick;

// A second of a day, about the begin or the end of a quarter-hour; once in 8 the day's last.
pub(crate) fn near_border(day: u64, quarter: u64, v: u64) -> u64 {
    let midnight = day % 49710 * 86400;
    let border = midnight + (quarter % 96 + v % 2) * 900;
    if v / 2 % 8 == 0 {
        midnight + 86399
    } else {
        (border + v / 16 % 5).saturating_sub(2)
    }
}

// An offset, mapped: 0, 1 us, the largest, or one that is refused, of either sign; or any.
pub(crate) fn some_offset(v: u64) -> u64 {
    let n = v / 8;
    match v % 8 {
        0 => 0,
        1 => 1 + n % 2,
        2 | 3 => 255998 - n % 3,
        4 => 255999 + n % 2,
        5 => u64::MAX - n % 2,
        _ => n % 255999,
    }
}

// A clock that an event of a list gets: once in 4 any, else a sound one whose second lies near a border, half
// of them with an earlier update, which is about 64 rollovers back.
fn some_clock(case: u64, plan: u64) -> State {
    let v = draw(case, 701);
    if v % 4 == 0 {
        return state(case);
    }
    let flag = v / 8192 % 2;
    State {
        seconds: near_border(plan, plan / 65536, v / 8),
        status: v / 1024 % 5,
        flag,
        since: pick(flag == 0, 0, 63 + v / 16384 % 4),
        ..fresh(v / 4 % 2)
    }
}

// Mostly a request that selects an offset alone, else an event of any code.
fn some_event(case: u64) -> [u64; ROW] {
    let v = draw(case, 702);
    match v % 32 {
        code if code < 5 => row(case, code),
        _ => short_row(2, 1, some_offset(v / 32)),
    }
}

// A list of up to eight events, each on a clock of its own: about half of the lists begin with a summary that
// is not empty. Its refusal is that of its last event.
pub(crate) fn list(case: u64) -> Verdict {
    let plan = draw(case, 700);
    let mut t = none_taken(pick(plan / 8 % 2 == 0, 0, plan / 16));
    let mut c = carried_from(&t);
    let mut refusal = None;
    for k in (0..1 + plan % 8).rev() {
        let event_case = case % 1048576 * 8 + k;
        let s = some_clock(event_case, plan / 16);
        let row = some_event(event_case);
        let m = event(s, &row);
        c = carried_past(c, s, &row, m);
        t = taken_after(t, s, &row, m.is_ok());
        refusal = m.err();
    }
    Verdict::new(refusal, same_carried(&t, c))
}
