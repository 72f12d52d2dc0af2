// One case of reading, writing and mapping numbers, run by both implementations.
use crate::calls::Verdict;
use crate::first::{Wrote, same_mapping, same_number, write_number, write_numbers};
use crate::form::{Draft, ROW, stands};
use crate::random::draw;
use crate::refusals::Refusal;
use crate::{form, random};

// A power of 128 with 1 added or taken off, or any number of up to 32 bits.
fn some_number(case: u64, what: u64) -> u64 {
    let v = draw(case, what);
    let n = match v / 4294967296 % 8 {
        0 => 129,
        1 => 16385,
        2 => 2097153,
        3 => 268435457,
        4 => 4294967295,
        5 => v % 128,
        6 => v % 65536,
        _ => v % 4294967296,
    };
    n.saturating_sub(v / 34359738368 % 3)
}

// Half of them 0, else mostly up to 63, once in 64 far outside.
fn some_place(case: u64) -> usize {
    let v = draw(case, 340);
    if v % 2 == 0 {
        0
    } else if v / 2 % 32 == 0 {
        usize::MAX
    } else {
        (v / 64 % 64) as usize
    }
}

// A number at a place of any bytes.
pub(crate) fn read(case: u64) -> Verdict {
    let bytes = random::some_bytes(case);
    let at = some_place(case);
    let end = (draw(case, 341) % 65) as usize;
    let lent = &bytes[..end];
    let mine = form::read(lent, at);
    Verdict::new(mine.err(), same_number(lent, at, mine))
}

// What the first wrote and answered, beside the second's refusal and draft.
pub(crate) fn agree(w: Wrote, refusal: Option<Refusal>, fill: u8, d: Draft) -> Verdict {
    let same = match refusal {
        Some(refusal) => w.answer == Err(refusal.number()) && stands(&w.text, &[], fill),
        None => w.answer == Ok(d.next) && w.text == d.text,
    };
    Verdict::new(refusal, same)
}

// Up to sixteen numbers, one after the other: two, repeated. A list of one is written by the writer of a
// single number.
pub(crate) fn write(case: u64) -> Verdict {
    let a = some_number(case, 350);
    let b = some_number(case, 351);
    let v = draw(case, 343);
    let fill = (v % 256) as u8;
    let room = (v / 256 % 65) as usize;
    let count = (v / 32768 % 17) as usize;
    let at = some_place(case);
    let mut row = [a; ROW];
    for k in [1, 4, 5, 13] {
        row[k] = b;
    }
    let numbers = &row[..count];
    let mut d = Draft::new(fill, at);
    for n in numbers {
        d.put(*n);
    }
    let fits = at <= room && d.next <= room;
    let w = match numbers {
        [n] => write_number(fill, room, at, *n),
        _ => write_numbers(fill, room, at, numbers),
    };
    agree(w, if fits { None } else { Some(Refusal::Room) }, fill, d)
}

// Mapping, and mapping back; the size of a written number.
pub(crate) fn map(case: u64) -> Verdict {
    let n = some_number(case, 350);
    let mut d = Draft::new(0, 0);
    d.put(n);
    let m = if n % 8 == 0 {
        u64::MAX - n / 8 % 3
    } else {
        draw(case, 362)
    };
    Verdict::new(None, same_mapping(n, m, d.next))
}
