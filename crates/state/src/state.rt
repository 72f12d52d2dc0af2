ghost use Rattle.std.specs.Prelude.{◌≡◌, ◌≤◌};
ghost use Rattle.state.specs.Fresh.{fresh_of};
ghost use Rattle.state.specs.State.{in_range, fresh_clock, strictly_within};
ghost use Rattle.state.specs.Inner.{first_fields_range, last_fields_range, of_device, fields_of_kind};

use crate::device::{Device, KIND_256, KIND_1024, RECORDER_256, RECORDER_1024, device_of};
use crate::limits::{
    LAST_MICRO, LAST_SECOND, MAX_CONSTANT, MAX_ERROR, MAX_FREQUENCY, MAX_INTERVAL, MAX_OFFSET,
    MIN_FREQUENCY, MIN_OFFSET, PHASE_LOWER_END, PHASE_UPPER_END, TIME_BAD,
};
use crate::outcome::Outcome;
use crate::refusal::Refusal;
use crate::units::{Frequency, Micros, OffsetUnits, PhaseParts, PhaseUnits};

// A clock's state, in the order of document 01's table; document 02's other fields follow it in the order of
// its requests. Any value of the type may be handed in, sound or not: C and records hand over any bytes, so
// that flag, status and kind are numbers, and the flag stands beside the interval and not around it.
#[repr(C)]
#[derive(Clone, Copy, Debug, PartialEq, Eq)]
pub struct Clock {
    // seconds since 1970-01-01T00:00:00Z
    pub seconds: u32,
    // microseconds of the second
    pub micros: Micros,
    // the part of a microsecond that no reading shows
    pub phase: PhaseUnits,
    // what is left of the last offset
    pub offset: OffsetUnits,
    pub frequency: Frequency,
    // what each tick adds to the phase
    pub adjustment: PhaseUnits,
    // time constant of the loop, as a power of two
    pub constant: u8,
    // 1 if an offset was accepted since the last setting (document 01's earlier update), else 0
    pub updated: u8,
    // the rollovers since that offset, up to the longest interval that counts, or 0
    pub interval: u32,
    pub maxerror: Micros,
    pub esterror: Micros,
    // TIME_OK 0, TIME_INS 1, TIME_DEL 2, TIME_OOP 3, TIME_BAD 4 (in today's sys/timex.h TIME_BAD is 5)
    pub status: u8,
    // kind of the device: KIND_256 0, KIND_1024 1
    pub kind: u8,
    // what each tick adds to the leftover: the remainder of the division of the frequency in force, of which
    // the adjustment has the quotient
    pub remainder: PhaseParts,
    // the remainders added up, less the whole units that went into the phase
    pub leftover: PhaseParts,
}

// The fields up to the frequency. Every u32 is a second that can be told: the test of `seconds` always holds,
// and costs nothing.
fn first_fields_in_range(c: Clock) -> bool
    ensures { result ≡ first_fields_range c }
{
    (c.seconds <= LAST_SECOND)
        & (c.micros.0 <= LAST_MICRO)
        & ((PHASE_LOWER_END < c.phase.0) & (c.phase.0 < PHASE_UPPER_END))
        & ((MIN_OFFSET <= c.offset.0) & (c.offset.0 <= MAX_OFFSET))
        & ((MIN_FREQUENCY <= c.frequency.0) & (c.frequency.0 <= MAX_FREQUENCY))
}

// The others, but for those whose range depends on the kind. How far the interval may go follows from the
// flag, 0 or MAX_INTERVAL: one test in place of two, which every call makes.
fn last_fields_in_range(c: Clock) -> bool
    ensures { result ≡ last_fields_range c }
{
    (c.constant <= MAX_CONSTANT)
        & ((c.updated <= 1) & (c.interval <= c.updated as u32 * MAX_INTERVAL))
        & (c.maxerror.0 <= MAX_ERROR)
        & (c.esterror.0 <= MAX_ERROR)
        & (c.status <= TIME_BAD)
}

// Whether a remainder or a leftover lies strictly within the parts of a phase unit, either way.
fn is_within(parts: u32, p: PhaseParts) -> bool
    requires { parts ≤ 64 }
    ensures { result ≡ strictly_within parts p.0 }
{
    let end = parts as i32;
    (-end < p.0) & (p.0 < end)
}

// What depends on the kind, in the ranges of its device.
fn in_ranges_of(d: Device, a: PhaseUnits, remainder: PhaseParts, leftover: PhaseParts) -> bool
    requires { d.divisor ≤ 64 }
    ensures { result ≡ of_device d a.0 remainder.0 leftover.0 }
{
    ((d.least.0 <= a.0) & (a.0 <= d.most.0))
        & is_within(d.divisor, remainder)
        & is_within(d.divisor, leftover)
}

// The kind, and what depends on it. A branch on the kind, and its own ends as constants, take fewer
// instructions than ends that are chosen; and one branch for the three fewer than one for each.
fn fields_of_kind_in_range(
    kind: u8,
    a: PhaseUnits,
    remainder: PhaseParts,
    leftover: PhaseParts,
) -> bool
    ensures { result ≡ fields_of_kind kind a.0 remainder.0 leftover.0 }
{
    match kind {
        KIND_256 => in_ranges_of(RECORDER_256, a, remainder, leftover),
        KIND_1024 => in_ranges_of(RECORDER_1024, a, remainder, leftover),
        _ => false,
    }
}

// Whether each field lies in its range. In parts, since tested all at once the compiled code reads fields in
// pairs: a pair of which a tick in place has just stored one waits for that store, and a tick then takes
// twice the time.
pub fn in_range(c: Clock) -> bool
    ensures { result ≡ in_range c }
{
    if !first_fields_in_range(c) {
        return false;
    }
    if !last_fields_in_range(c) {
        return false;
    }
    fields_of_kind_in_range(c.kind, c.adjustment, c.remainder, c.leftover)
}

// The clock of a kind before anything has happened to it, which counts as set to 0 s. Of a number that is no
// kind: refusal 1, and the clock of kind 0.
pub fn fresh(kind: u8) -> Outcome
    ensures { result ≡ fresh_of kind }
{
    if KIND_1024 < kind {
        return Outcome::refused(fresh_of(KIND_256), Refusal::State);
    }
    Outcome::accepted(fresh_of(kind))
}

fn fresh_of(kind: u8) -> Clock
    ensures { result ≡ fresh_clock kind }
{
    Clock {
        seconds: 0,
        micros: Micros(0),
        phase: PhaseUnits(0),
        offset: OffsetUnits(0),
        frequency: Frequency(0),
        adjustment: device_of(kind).base,
        constant: 0,
        updated: 0,
        interval: 0,
        maxerror: Micros(MAX_ERROR),
        esterror: Micros(MAX_ERROR),
        status: TIME_BAD,
        kind,
        remainder: PhaseParts(0),
        leftover: PhaseParts(0),
    }
}
