// One case of writing and reading a record, run by both implementations.
use crate::calls::Verdict;
use crate::first::{same_record, write_record};
use crate::form::{Draft, ROW, Reader};
use crate::numbers::agree;
use crate::refusals::Refusal;
use crate::rules::{State, fits, record_mask, row_of, state_of};
use crate::signed::pick;
use crate::{form, random};
use random::{Bytes, draw};

// A clock's record, sound or not; the lent part is too short for about one in four. A writer checks the
// clock, then the room.
pub(crate) fn write(case: u64) -> Verdict {
    let s = random::state(case);
    let row = row_of(s);
    let fill = (draw(case, 500) % 256) as u8;
    let room = (16 + draw(case, 501) % 49) as usize;
    let mut d = Draft::new(fill, 0);
    d.put_row(&row, record_mask(row[0]));
    let refusal = if !fits(&row, ROW) {
        Some(Refusal::State)
    } else if room < d.next {
        Some(Refusal::Room)
    } else {
        None
    };
    agree(write_record(s, fill, room), refusal, fill, d)
}

// A clock's record, which is of version 4; once in 16 of any other.
fn some_row(case: u64) -> [u64; ROW] {
    let v = draw(case, 511);
    let mut row = row_of(random::state(case));
    if v % 16 == 0 {
        row[0] = v / 16 % 300;
    }
    row
}

// A clock's record of version 1, with a second of the earlier update, or of version 2 or 3.
fn some_old_row(case: u64) -> [u64; ROW] {
    let mut row = row_of(random::state(case));
    row[0] = 1 + case % 3;
    if row[0] == 1 {
        row[10] = random::since(case, row[9], 4294967295);
    }
    row
}

// The numbers of the row that the mask names, behind which bytes of any value follow.
fn draft_of(case: u64, row: &[u64; ROW], mask: u64) -> Draft {
    let mut d = Draft {
        text: random::some_bytes(case),
        next: 0,
    };
    d.put_row(row, mask);
    d
}

// The bytes of a record, once in 16 other bytes in its place; whole or damaged.
fn bytes_of(row: &[u64; ROW], case: u64) -> Bytes {
    let v = draw(case, 510);
    let d = draft_of(case, row, pick(v % 16 == 0, 0, record_mask(row[0])));
    Bytes::new(d.text, d.next).damaged(case)
}

// Every field is judged where it stands, one that is not there as 0, before the bytes that end the reading;
// bytes after the end come last.
fn read_record(bytes: &[u8]) -> Result<State, Refusal> {
    let mut row = [0u64; ROW];
    let version = form::read(bytes, 0).map_or(0, |n| n.value);
    let mut reader = Reader::new(bytes, 0);
    let taken = reader.take(record_mask(version), &mut row);
    if !fits(&row, reader.passed) {
        return Err(Refusal::Field);
    }
    taken?;
    if reader.next < bytes.len() {
        return Err(Refusal::Beyond);
    }
    Ok(state_of(&row))
}

fn compared(b: Bytes) -> Verdict {
    let a = read_record(b.lent());
    Verdict::new(a.err(), same_record(b.lent(), a))
}

pub(crate) fn read(case: u64) -> Verdict {
    compared(bytes_of(&some_row(case), case))
}

pub(crate) fn read_old(case: u64) -> Verdict {
    compared(bytes_of(&some_old_row(case), case))
}

// A number that is no kind; some are one in their last 8 or 32 bits.
fn no_kind(v: u64) -> u64 {
    match v % 8 {
        0 => 2,
        1 => 3,
        2 => 127,
        3 => 128,
        4 => 255,
        5 => 256 + v / 8 % 2,
        6 => 4294967296 + v / 8 % 2,
        _ => v / 8 % 34359738368,
    }
}

// A clock's record whose kind is none or the other one, or is missing, or stands in an old version, or is
// cut, or has a form of two bytes: the version takes one byte, and the kind begins at place 1.
fn odd_kind(case: u64) -> Bytes {
    let v = draw(case, 520);
    let n = v / 8;
    let mut row = row_of(random::state(case));
    let mut mask = record_mask(row[0]);
    match v % 8 {
        0 | 1 => row[1] = no_kind(n),
        2 | 3 => row[1] = 1_u64.saturating_sub(row[1]),
        4 => mask = mask.saturating_sub(2),
        5 => row[0] = 1 + n % 2,
        6 => (),
        _ => row[1] = 128 + row[1] % 128,
    }
    let mut d = draft_of(case, &row, mask);
    match v % 8 {
        6 => d.next = (1 + n % 2) as usize,
        7 => d.text[2] = 0,
        _ => (),
    }
    Bytes::new(d.text, d.next)
}

pub(crate) fn read_odd_kind(case: u64) -> Verdict {
    compared(odd_kind(case))
}

// A clock's record whose parts are odd, or are missing, or stand in an old version, or are cut, or of which
// one has a form of two bytes: the record ends with the two.
fn odd_parts(case: u64) -> Bytes {
    let v = draw(case, 530);
    let n = v / 8;
    let mut row = row_of(random::state(case));
    let mut mask = record_mask(row[0]);
    match v % 8 {
        0 | 1 => row[14] = random::odd_parts(row[1], n),
        2 | 3 => row[15] = random::odd_parts(row[1], n),
        4 => mask = record_mask(3),
        5 => row[0] = 3,
        6 => (),
        _ => {
            row[14] = row[14] % 128 + 128 * (n % 2);
            row[15] = row[15] % 128 + 128 * (1 - n % 2);
        }
    }
    let mut d = draft_of(case, &row, mask);
    match v % 8 {
        6 => d.next = d.next.saturating_sub((1 + n % 2) as usize),
        7 => d.text[(d.next % 64 + 63 - (n % 2) as usize) % 64] = 0,
        _ => (),
    }
    Bytes::new(d.text, d.next)
}

pub(crate) fn read_odd_parts(case: u64) -> Verdict {
    compared(odd_parts(case))
}
