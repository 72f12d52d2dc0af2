// One case of writing and reading a label, run by both implementations.
use crate::calls::Verdict;
use crate::dates::{clock_label, date_of, label_of};
use crate::first::{same_date, same_label, write_label};
use crate::form::stands;
use crate::random::draw;
use crate::refusals::Refusal;
use crate::rules::{State, fresh, sound};
use crate::signed::pick;
use crate::{dates, random};

// A writer checks the clock, then the room.
fn written(s: State, room: usize, fill: u8) -> Verdict {
    let label = clock_label(s);
    let (refusal, text): (_, &[u8]) = if !sound(s) {
        (Some(Refusal::State), &[])
    } else if room < 20 {
        (Some(Refusal::Room), &[])
    } else {
        (None, &label)
    };
    let w = write_label(s, fill, room);
    let same = w.answer.err() == refusal.map(Refusal::number);
    Verdict::new(refusal, same && stands(&w.text, text, fill))
}

// A clock's label, mostly with room for it.
pub(crate) fn write(case: u64) -> Verdict {
    let v = draw(case, 400);
    let room = pick(v % 8 == 0, v / 8 % 20, 20 + v / 8 % 13);
    written(random::state(case), room as usize, (v % 251) as u8)
}

fn read_both(text: &[u8]) -> Verdict {
    let mine = dates::read(text);
    Verdict::new(mine.err(), same_label(text, mine))
}

// A label's text, of a second also somewhat past the last one that a clock can hold; once in 4 of a day's
// last second, which reads 60.
fn some_label(case: u64) -> [u8; 20] {
    let v = draw(case, 410);
    let near_end = 4294967200 + v / 64 % 200000;
    let second = pick(v % 8 == 0, near_end, random::second(case, 413));
    let sixty = v / 8 % 4 == 0;
    let last = second / 86400 % 65536 * 86400 + 86399;
    label_of(pick(sixty, last, second), sixty)
}

// A label whole or with one byte changed, to the one before, the one after, a digit or any; once in 16 a part
// of 18 to 21 bytes, of which the last is a space.
pub(crate) fn read(case: u64) -> Verdict {
    let v = draw(case, 416);
    let k = (v / 16 % 20) as usize;
    let mut text = [b' '; 21];
    text[..20].copy_from_slice(&some_label(case));
    let b = text[k];
    text[k] = match v % 8 {
        1 => b.wrapping_add(1),
        2 => b.wrapping_sub(1),
        3 => b'0' + (v / 1024 % 10) as u8,
        4 => (v / 1024 % 256) as u8,
        6 => b'0',
        7 => b'1',
        _ => b,
    };
    let size = if v % 16 == 0 { 18 + v / 16 % 4 } else { 20 };
    read_both(&text[..size as usize])
}

// A second of a day: its date, and its label written, of one kind of clock and the other in turn, and read
// back.
pub(crate) fn day(case: u64) -> Verdict {
    let second = case % 49711 * 86400 + draw(case, 420) % 86400;
    let s = State {
        seconds: second.min(4294967295),
        status: 3,
        ..fresh(case % 2)
    };
    let w = written(s, 24, 0);
    let r = read_both(&label_of(s.seconds, false));
    Verdict {
        same: w.same && r.same && same_date(s.seconds, date_of(s.seconds)),
        ..r
    }
}
