// The state and events of documents 01 and 02, a second time: ticks, rollovers, settings and requests, by
// sign and size. Signed fields are held as the numbers that they are mapped to.
use crate::devices::{
    PHASE_MICRO, adjustment_at, adjustment_of, in_parts, known, lost, parts, reached, whole_micros,
};
use crate::form::ROW;
use crate::refusals::Refusal;
use crate::signed::{Signed, halved, pick};

// The table of document 01, in its order; `since` is document 02's number of rollovers since the last offset,
// in place of its second. Behind it document 02's kind of device, and the parts of a phase unit that each
// tick adds and that have added up. All are numbers, flag, status and kind too: in a state that is not sound
// any may stand there.
#[derive(Clone, Copy, PartialEq, Eq)]
pub(crate) struct State {
    pub(crate) seconds: u64,
    pub(crate) micros: u64,
    pub(crate) phase: u64,
    pub(crate) left: u64,
    pub(crate) frequency: u64,
    pub(crate) adjustment: u64,
    pub(crate) constant: u64,
    pub(crate) flag: u64,
    pub(crate) since: u64,
    pub(crate) maximum: u64,
    pub(crate) estimated: u64,
    pub(crate) status: u64,
    pub(crate) kind: u64,
    pub(crate) remainder: u64,
    pub(crate) leftover: u64,
}

// The fresh clock of a kind.
pub(crate) fn fresh(kind: u64) -> State {
    State {
        seconds: 0,
        micros: 0,
        phase: 0,
        left: 0,
        frequency: 0,
        adjustment: adjustment_at(kind, 0),
        constant: 0,
        flag: 0,
        since: 0,
        maximum: 16000000,
        estimated: 16000000,
        status: 4,
        kind,
        remainder: 0,
        leftover: 0,
    }
}

// The fresh clock of a number that need not be a kind.
pub(crate) fn begin(kind: u64) -> Result<State, Refusal> {
    if known(kind) {
        Ok(fresh(kind))
    } else {
        Err(Refusal::State)
    }
}

// The version of the records that are written; those before it are still read.
const WRITTEN: u64 = 4;

// The numbers of a state's record.
pub(crate) fn row_of(s: State) -> [u64; ROW] {
    [
        WRITTEN,
        s.kind,
        s.seconds,
        s.micros,
        s.phase,
        s.left,
        s.frequency,
        s.adjustment,
        s.constant,
        s.flag,
        s.since,
        s.maximum,
        s.estimated,
        s.status,
        s.remainder,
        s.leftover,
    ]
}

// The state of a record's numbers, those that it lacks being 0. One of version 1 has no earlier update,
// whatever it says of one.
pub(crate) fn state_of(row: &[u64; ROW]) -> State {
    State {
        seconds: row[2],
        micros: row[3],
        phase: row[4],
        left: row[5],
        frequency: row[6],
        adjustment: row[7],
        constant: row[8],
        flag: pick(row[0] == 1, 0, row[9]),
        since: pick(row[0] == 1, 0, row[10]),
        maximum: row[11],
        estimated: row[12],
        status: row[13],
        kind: row[1],
        remainder: row[14],
        leftover: row[15],
    }
}

// All numbers of a record as a mask; all but the parts, at the places 14 and 15; and of these all but the
// kind, at place 1.
const WHOLE: u64 = 0xffff;

const WITHOUT_PARTS: u64 = 0x3fff;

const WITHOUT_KIND: u64 = WITHOUT_PARTS - 2;

// The numbers that a record of a version has: the kind is there from version 3 on, the parts from version 4
// on.
pub(crate) fn record_mask(version: u64) -> u64 {
    pick(
        version < 3,
        WITHOUT_KIND,
        pick(version == 3, WITHOUT_PARTS, WHOLE),
    )
}

// The largest number at place k of a record. A field from -m to m is mapped to 0 to 2m; the adjustment's
// range, at place 7, is not of that form. At place 10 version 1 has a second, the later ones a count.
fn most_at(row: &[u64; ROW], k: usize) -> u64 {
    match k {
        0 => WRITTEN,
        2 | 7 => 4294967295,
        3 => 999999,
        4 => 536870910,
        5 => 4194271232,
        6 => 3355443200,
        10 if row[9] == 0 => 0,
        10 if row[0] == 1 => 4294967295,
        10 => 1024,
        11 | 12 => 16000000,
        8 | 13 => 4,
        14 | 15 => parts(row[1]).saturating_mul(2).saturating_sub(2),
        _ => 1,
    }
}

// Whether the first `count` numbers of a record are in range: the version from 1 on, the adjustment as the
// record's kind has it.
pub(crate) fn fits(row: &[u64; ROW], count: usize) -> bool {
    let versioned = count == 0 || 0 < row[0];
    let adjusted = count < 8 || reached(row[1], row[7]);
    let mut judged = row.iter().enumerate().take(count);
    versioned && adjusted && judged.all(|(k, n)| *n <= most_at(row, k))
}

pub(crate) fn sound(s: State) -> bool {
    fits(&row_of(s), ROW)
}

// The second that a rollover has reached, with its leap step, in `seconds` and `status`.
fn leapt(s: State) -> State {
    let of_day = s.seconds % 86400;
    let inserts = s.status == 1 && of_day == 0;
    let deletes = s.status == 2 && of_day == 86399;
    let over = pick(deletes || s.status == 3, 0, s.status);
    State {
        seconds: s
            .seconds
            .saturating_add(u64::from(deletes))
            .saturating_sub(u64::from(inserts)),
        status: pick(inserts, 3, over),
        ..s
    }
}

fn rolled(s: State) -> State {
    let left = Signed::unmapped(s.left);
    let share = Signed::new(left.negative, halved(left.size / 1024, s.constant));
    leapt(State {
        seconds: s.seconds.saturating_add(1),
        micros: s.micros.saturating_sub(1000000),
        maximum: s.maximum.saturating_add(100).min(16000000),
        since: s.since.saturating_add(s.flag).min(1024),
        left: Signed::new(left.negative, left.size.saturating_sub(share.size)).mapped(),
        adjustment: adjustment_of(s.kind, share, s.frequency),
        remainder: lost(s.kind, s.frequency),
        ..s
    })
}

// What has added up with a tick's remainder, before a whole unit is taken off.
pub(crate) fn gathered(s: State) -> Signed {
    Signed::unmapped(s.leftover) + Signed::unmapped(s.remainder)
}

// Phase and leftover after a tick as one number of parts: none of adjustment and remainder is lost, whichever
// of the two a part goes to.
fn exact(s: State) -> Signed {
    let phase = Signed::unmapped(s.phase) + Signed::unmapped(s.adjustment);
    in_parts(s.kind, phase) + gathered(s)
}

// The leftover after a tick: less than a unit, on the side where it has added up, and the rest of the exact
// number whole units.
fn leftover_of(s: State, total: Signed) -> Signed {
    let unit = parts(s.kind);
    let side = gathered(s);
    let over = total.size % unit;
    if side.negative == total.negative {
        Signed::new(side.negative, over)
    } else {
        Signed::new(side.negative, unit.saturating_sub(over) % unit)
    }
}

// The phase after a tick, before whole microseconds are taken off.
fn phase_of(kind: u64, total: Signed, leftover: Signed) -> Signed {
    let whole = total - leftover;
    Signed::new(whole.negative, whole.size / parts(kind))
}

// One tick of a sound clock.
pub(crate) fn tick(s: State) -> Result<State, Refusal> {
    let total = exact(s);
    let leftover = leftover_of(s, total);
    let moved = phase_of(s.kind, total, leftover);
    let whole = moved.size / PHASE_MICRO;
    let grown = s.micros.saturating_add(whole_micros(s.kind));
    let after = State {
        leftover: leftover.mapped(),
        micros: if moved.negative {
            grown.saturating_sub(whole)
        } else {
            grown.saturating_add(whole)
        },
        phase: Signed::new(moved.negative, moved.size % PHASE_MICRO).mapped(),
        ..s
    };
    if after.micros < 1000000 {
        Ok(after)
    } else if s.seconds == 4294967295 {
        Err(Refusal::Last)
    } else {
        Ok(rolled(after))
    }
}

fn set(s: State, seconds: u64, micros: u64) -> Result<State, Refusal> {
    if 4294967295 < seconds || 999999 < micros {
        return Err(Refusal::Time);
    }
    Ok(State {
        seconds,
        micros,
        frequency: s.frequency,
        constant: s.constant,
        adjustment: adjustment_of(s.kind, Signed::new(false, 0), s.frequency),
        remainder: lost(s.kind, s.frequency),
        ..fresh(s.kind)
    })
}

// What a request selects; offset and frequency are mapped.
#[derive(Clone, Copy)]
struct Asked {
    offset: Option<u64>,
    frequency: Option<u64>,
    maximum: Option<u64>,
    estimated: Option<u64>,
    status: Option<u64>,
    constant: Option<u64>,
}

// A request is a row: code, mode, then the fields in order of mode bit.
fn asked_by(row: &[u64; ROW]) -> Asked {
    let mode = row[1];
    let selected = |bit: u64, n: u64| (mode & bit != 0).then_some(n);
    Asked {
        offset: selected(1, row[2]),
        frequency: selected(2, row[3]),
        maximum: selected(4, row[4]),
        estimated: selected(8, row[5]),
        status: selected(16, row[6]),
        constant: selected(32, row[7]),
    }
}

fn above(asked: Option<u64>, most: u64) -> bool {
    asked.is_some_and(|n| most < n)
}

// The first refusal of a request that applies. An offset waits for 64 rollovers since the one before, if
// there was one.
fn judged(s: State, mode: u64, a: Asked) -> Result<(), Refusal> {
    if 63 < mode {
        Err(Refusal::Mode)
    } else if above(a.offset, 255998) {
        Err(Refusal::Offset)
    } else if above(a.frequency, 3355443198) {
        Err(Refusal::Frequency)
    } else if above(a.maximum, 16000000) || above(a.estimated, 16000000) {
        Err(Refusal::Error)
    } else if above(a.status, 4) {
        Err(Refusal::Status)
    } else if above(a.constant, 4) {
        Err(Refusal::Constant)
    } else if a.offset.is_some() && s.flag == 1 && s.since < 64 {
        Err(Refusal::Soon)
    } else {
        Ok(())
    }
}

// Frequency, errors, status and time constant.
fn plain_effects(s: State, a: Asked) -> State {
    let status = a.status.unwrap_or(s.status);
    State {
        frequency: a.frequency.unwrap_or(s.frequency),
        maximum: a.maximum.unwrap_or(s.maximum),
        estimated: a.estimated.unwrap_or(s.estimated),
        status: pick(s.status == 0 || status == 4, status, s.status),
        constant: a.constant.unwrap_or(s.constant),
        ..s
    }
}

pub(crate) fn times(a: u64, b: u64) -> u64 {
    a % 131072 * (b % 2048)
}

// The frequency with the gain of an offset.
fn gained(s: State, offset: Signed) -> u64 {
    let quarter = halved(times(offset.size, s.since), s.constant);
    let gain = Signed::new(offset.negative, halved(quarter, s.constant));
    let f = Signed::unmapped(s.frequency) + gain;
    Signed::new(f.negative, f.size.min(1677721600)).mapped()
}

fn offset_effects(s: State, n: u64, writes_bad: bool) -> State {
    let offset = Signed::unmapped(n);
    State {
        left: Signed::new(offset.negative, offset.size % 131072 * 16384).mapped(),
        frequency: gained(s, offset),
        flag: 1,
        since: 0,
        status: pick(s.status == 4 && !writes_bad, 0, s.status),
        ..s
    }
}

fn adjust(s: State, row: &[u64; ROW]) -> Result<State, Refusal> {
    let a = asked_by(row);
    judged(s, row[1], a)?;
    let after = plain_effects(s, a);
    Ok(match a.offset {
        Some(n) => offset_effects(after, n, a.status == Some(4)),
        None => after,
    })
}

// A reading: its state is shown where it is sound.
pub(crate) fn reading(s: State) -> Result<State, Refusal> {
    if sound(s) { Ok(s) } else { Err(Refusal::State) }
}

// An event on a clock, as it leaves it: code 0 one tick, 1 a setting, 2 a request, 3 a reading. A code is a
// number and not an enum: it stands so in a history, where any may come.
pub(crate) fn step(s: State, row: &[u64; ROW]) -> Result<State, Refusal> {
    reading(s)?;
    match row[0] {
        0 => tick(s),
        1 => set(s, row[1], row[2]),
        2 => adjust(s, row),
        _ => Ok(s),
    }
}

// What a reading shows of a clock.
#[derive(Clone, Copy, PartialEq, Eq)]
pub(crate) struct Shown {
    pub(crate) seconds: u64,
    pub(crate) micros: u64,
    pub(crate) status: u64,
    pub(crate) maximum: u64,
    pub(crate) estimated: u64,
}

// What an event of a code shows: an accepted reading its clock, any other zeros and status 4.
pub(crate) fn shown_by(code: u64, after: Result<State, Refusal>) -> Shown {
    match after {
        Ok(s) if code == 3 => Shown {
            seconds: s.seconds,
            micros: s.micros,
            status: s.status,
            maximum: s.maximum,
            estimated: s.estimated,
        },
        _ => Shown {
            seconds: 0,
            micros: 0,
            status: 4,
            maximum: 0,
            estimated: 0,
        },
    }
}
