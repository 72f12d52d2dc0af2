// What has been read of a record, by groups of fields, as the record holds them: signed fields are the
// numbers that they are mapped to. And the clock that all of them stand for.
ghost use Rattle.std.specs.Prelude.{◌≡◌};
ghost use Rattle.record.specs.Layout.{kept_update, clock_of};

use crate::field::unmapped_of;
use state::{Clock, Frequency, Micros, OffsetUnits, PhaseParts, PhaseUnits};

// What stands before the table's fields.
#[derive(Clone, Copy)]
pub(crate) struct Head {
    pub version: u32,
    pub kind: u8,
}

#[derive(Clone, Copy)]
pub(crate) struct Time {
    pub seconds: u32,
    pub micros: u32,
    pub phase: u32,
}

#[derive(Clone, Copy)]
pub(crate) struct Loop {
    pub offset: u32,
    pub frequency: u32,
}

#[derive(Clone, Copy)]
pub(crate) struct Rate {
    pub adjustment: u32,
    pub constant: u8,
}

// Flag and number stand apart, as in a record and in a clock.
#[derive(Clone, Copy)]
pub(crate) struct Update {
    pub updated: u8,
    pub interval: u32,
}

#[derive(Clone, Copy)]
pub(crate) struct Errors {
    pub maxerror: u32,
    pub esterror: u32,
    pub status: u8,
}

#[derive(Clone, Copy)]
pub(crate) struct Parts {
    pub remainder: u32,
    pub leftover: u32,
}

// What is kept of an earlier update: nothing in version 1, where a second followed the flag.
pub(crate) fn kept_update(version: u32, flag: u8, last: u32) -> Update
    ensures { result ≡ kept_update version flag last }
{
    match version {
        1 => Update {
            updated: 0,
            interval: 0,
        },
        _ => Update {
            updated: flag,
            interval: last,
        },
    }
}

pub(crate) fn clock_of(h: Head, t: Time, l: Loop, a: Rate, u: Update, e: Errors, p: Parts) -> Clock
    ensures { result ≡ clock_of h t l a u e p }
{
    Clock {
        seconds: t.seconds,
        micros: Micros(t.micros),
        phase: PhaseUnits(unmapped_of(t.phase)),
        offset: OffsetUnits(unmapped_of(l.offset)),
        frequency: Frequency(unmapped_of(l.frequency)),
        adjustment: PhaseUnits(unmapped_of(a.adjustment)),
        constant: a.constant,
        updated: u.updated,
        interval: u.interval,
        maxerror: Micros(e.maxerror),
        esterror: Micros(e.esterror),
        status: e.status,
        kind: h.kind,
        remainder: PhaseParts(unmapped_of(p.remainder)),
        leftover: PhaseParts(unmapped_of(p.leftover)),
    }
}
