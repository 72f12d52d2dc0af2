// Reading a clock's record.
ghost use Rattle.std.specs.Prelude.{◌≡◌};
ghost use Rattle.record.specs.Layout.{head_fields, time_fields, loop_fields, rate_fields, update_fields, error_fields, part_fields};
ghost use Rattle.record.specs.Reading.{reading_of, refused_with};
ghost use Rattle.state.specs.Refusal.{refusal_number};
ghost use Rattle.record.specs.Inner.{ReadsGroup, last_most, mapped_parts};

use crate::field::{Read, plain, signed, since, small, version};
use crate::groups::{Errors, Head, Loop, Parts, Rate, Time, Update, clock_of, kept_update};
use crate::layout::{KIND_SINCE, PARTS_SINCE};
use state::{
    Clock, KIND_256, KIND_1024, LAST_MICRO, LAST_SECOND, MAX_CONSTANT, MAX_ERROR, MAX_FREQUENCY,
    MAX_INTERVAL, MAX_OFFSET, PHASE_UPPER_END, Refusal, TIME_BAD, device_constants, fresh,
};

// The last of the kinds.
const LAST_KIND: u32 = KIND_1024 as u32;

// The greatest numbers that signed fields are mapped to whose ranges are as wide below 0 as above, so that a
// number up to these is in range.
const MAPPED_PHASE: u32 = 2 * (PHASE_UPPER_END as u32 - 1);

const MAPPED_OFFSET: u32 = 2 * (MAX_OFFSET as u32);

const MAPPED_FREQUENCY: u32 = 2 * (MAX_FREQUENCY as u32);

// The answer of a reading: refusal 0 and the clock that was saved, or refusal 10, 11, 12 or 13 and the fresh
// clock of kind 0. A struct and not a Result, since a refused reading gives a clock too.
#[derive(Clone, Copy, Debug, PartialEq, Eq)]
pub struct Restored {
    pub refusal: u8,
    pub clock: Clock,
}

// A refused reading is rare: said to the compiler, this keeps the way through all fields without a call.
#[cold]
fn refused(refusal: Refusal) -> Restored
    ensures { result ≡ refused_with (refusal_number refusal) }
{
    Restored {
        refusal: refusal.number(),
        clock: fresh(KIND_256).clock,
    }
}

// The clock that the bytes are a record of: group by group, and then nothing may follow. With `?` for each
// group, in a function that gives a Result, a reading takes 537 instructions in the place of 470.
pub fn read(bytes: &[u8]) -> Restored
    ensures { result ≡ reading_of bytes.now }
{
    let d = head_at(bytes);
    let Ok(h) = d else {
        return refused(d.unwrap_err());
    };
    let d = time_at(bytes, h.next);
    let Ok(t) = d else {
        return refused(d.unwrap_err());
    };
    let d = loop_at(bytes, t.next);
    let Ok(l) = d else {
        return refused(d.unwrap_err());
    };
    let d = rate_at(bytes, l.next, h.value.kind);
    let Ok(a) = d else {
        return refused(d.unwrap_err());
    };
    let d = update_at(bytes, a.next, h.value.version);
    let Ok(u) = d else {
        return refused(d.unwrap_err());
    };
    let d = errors_at(bytes, u.next);
    let Ok(e) = d else {
        return refused(d.unwrap_err());
    };
    let d = parts_at(bytes, e.next, h.value);
    let Ok(p) = d else {
        return refused(d.unwrap_err());
    };
    if p.next < bytes.len() {
        return refused(Refusal::Beyond);
    }
    let clock = clock_of(
        h.value, t.value, l.value, a.value, u.value, e.value, p.value,
    );
    Restored { refusal: 0, clock }
}

// The groups of fields. Each field's answer is taken apart by `let .. else`, the form that document 01 names.

// Version and kind, which stand at the beginning.
fn head_at(bytes: &[u8]) -> Result<Read<Head>, Refusal>
    ensures { ReadsGroup head_fields bytes.now 0 result }
{
    let d = version(bytes);
    let Ok(version) = d else {
        return Err(d.unwrap_err());
    };
    let d = since(KIND_SINCE, version.value, bytes, version.next, LAST_KIND);
    let Ok(kind) = d else {
        return Err(d.unwrap_err());
    };
    Ok(Read {
        value: Head {
            version: version.value,
            kind: kind.value as u8,
        },
        next: kind.next,
    })
}

// Seconds, microseconds and phase.
fn time_at(bytes: &[u8], at: usize) -> Result<Read<Time>, Refusal>
    ensures { ReadsGroup time_fields bytes.now at result }
{
    let d = plain(bytes, at, LAST_SECOND);
    let Ok(seconds) = d else {
        return Err(d.unwrap_err());
    };
    let d = plain(bytes, seconds.next, LAST_MICRO);
    let Ok(micros) = d else {
        return Err(d.unwrap_err());
    };
    let d = plain(bytes, micros.next, MAPPED_PHASE);
    let Ok(phase) = d else {
        return Err(d.unwrap_err());
    };
    Ok(Read {
        value: Time {
            seconds: seconds.value,
            micros: micros.value,
            phase: phase.value,
        },
        next: phase.next,
    })
}

// Offset left and frequency.
fn loop_at(bytes: &[u8], at: usize) -> Result<Read<Loop>, Refusal>
    ensures { ReadsGroup loop_fields bytes.now at result }
{
    let d = plain(bytes, at, MAPPED_OFFSET);
    let Ok(offset) = d else {
        return Err(d.unwrap_err());
    };
    let d = plain(bytes, offset.next, MAPPED_FREQUENCY);
    let Ok(frequency) = d else {
        return Err(d.unwrap_err());
    };
    Ok(Read {
        value: Loop {
            offset: offset.value,
            frequency: frequency.value,
        },
        next: frequency.next,
    })
}

// Adjustment, in the range of the record's own device, and time constant.
fn rate_at(bytes: &[u8], at: usize, kind: u8) -> Result<Read<Rate>, Refusal>
    ensures { ReadsGroup (rate_fields kind) bytes.now at result }
{
    let device = device_constants(kind).device;
    let d = signed(bytes, at, device.least.0, device.most.0);
    let Ok(adjustment) = d else {
        return Err(d.unwrap_err());
    };
    let d = small(bytes, adjustment.next, MAX_CONSTANT);
    let Ok(constant) = d else {
        return Err(d.unwrap_err());
    };
    Ok(Read {
        value: Rate {
            adjustment: adjustment.value,
            constant: constant.value,
        },
        next: constant.next,
    })
}

// The largest number behind the flag of an earlier update: its second in version 1, else the rollovers since
// it; 0 where there is none.
fn last_most(version: u32, flag: u8) -> u32
    ensures { result ≡ last_most version flag }
{
    if flag != 1 {
        return 0;
    }
    match version {
        1 => LAST_SECOND,
        _ => MAX_INTERVAL,
    }
}

// The earlier update: its flag, and its second or the rollovers since it.
fn update_at(bytes: &[u8], at: usize, version: u32) -> Result<Read<Update>, Refusal>
    ensures { ReadsGroup (update_fields version) bytes.now at result }
{
    let d = small(bytes, at, 1);
    let Ok(flag) = d else {
        return Err(d.unwrap_err());
    };
    let d = plain(bytes, flag.next, last_most(version, flag.value));
    let Ok(last) = d else {
        return Err(d.unwrap_err());
    };
    Ok(Read {
        value: kept_update(version, flag.value, last.value),
        next: last.next,
    })
}

// Both errors and the status.
fn errors_at(bytes: &[u8], at: usize) -> Result<Read<Errors>, Refusal>
    ensures { ReadsGroup error_fields bytes.now at result }
{
    let d = plain(bytes, at, MAX_ERROR);
    let Ok(maxerror) = d else {
        return Err(d.unwrap_err());
    };
    let d = plain(bytes, maxerror.next, MAX_ERROR);
    let Ok(esterror) = d else {
        return Err(d.unwrap_err());
    };
    let d = small(bytes, esterror.next, TIME_BAD);
    let Ok(status) = d else {
        return Err(d.unwrap_err());
    };
    Ok(Read {
        value: Errors {
            maxerror: maxerror.value,
            esterror: esterror.value,
            status: status.value,
        },
        next: status.next,
    })
}

// The greatest number that a remainder or a leftover is mapped to: either has fewer parts than make a unit of
// the record's own device.
fn mapped_parts(kind: u8) -> u32
    ensures { result ≡ mapped_parts kind }
{
    2 * (device_constants(kind).device.divisor - 1)
}

// Remainder and leftover, which are the last.
fn parts_at(bytes: &[u8], at: usize, h: Head) -> Result<Read<Parts>, Refusal>
    ensures { ReadsGroup (part_fields h) bytes.now at result }
{
    let most = mapped_parts(h.kind);
    let d = since(PARTS_SINCE, h.version, bytes, at, most);
    let Ok(remainder) = d else {
        return Err(d.unwrap_err());
    };
    let d = since(PARTS_SINCE, h.version, bytes, remainder.next, most);
    let Ok(leftover) = d else {
        return Err(d.unwrap_err());
    };
    Ok(Read {
        value: Parts {
            remainder: remainder.value,
            leftover: leftover.value,
        },
        next: leftover.next,
    })
}
