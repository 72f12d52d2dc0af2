// Both recorders, a second time, from the rates of their timers: what falls to a second is divided among its
// ticks, in units of the phase. Kind 0 is the recorder of 256 Hz, kind 1 that of 1,024 Hz. A kind is a number
// and not an enum: any may come, and what is neither is refused before its rate matters.
ghost use Rattle.std.specs.Prelude.{◌<◌};

use crate::signed::Signed;

// A microsecond and a second in units of the phase, 2^-28 us.
pub(crate) const PHASE_MICRO: u64 = 268435456;

const PHASE_SECOND: u64 = 1000000 * PHASE_MICRO;

// The unit of an offset, 2^-14 us, and what the unit of the frequency, 2^-24 ppm, makes in a second: in units
// of the phase.
const PHASE_OFFSET: u64 = 16384;

const PHASE_FREQUENCY: u64 = 16;

// The largest share, a 1,024th of 127,999 us in units of an offset, and the largest frequency, 100 ppm in its
// own.
const LARGEST_SHARE: u64 = 127999 * PHASE_OFFSET / 1024;

const LARGEST_FREQUENCY: u64 = 1677721600;

pub(crate) fn known(kind: u64) -> bool {
    kind < 2
}

// The timer's ticks in a second.
pub(crate) fn rate(kind: u64) -> u64
    ensures { 0 < result }
{
    if kind == 0 { 256 } else { 1024 }
}

// What falls to one tick of that which falls to a second, without its fraction.
pub(crate) fn to_tick(kind: u64, n: u64) -> u64 {
    n / rate(kind)
}

// A tick's length: its whole microseconds, and the part of a microsecond beyond them, in units of the phase.
pub(crate) fn whole_micros(kind: u64) -> u64 {
    to_tick(kind, PHASE_SECOND) / PHASE_MICRO
}

fn beyond(kind: u64) -> Signed {
    Signed::new(false, to_tick(kind, PHASE_SECOND) % PHASE_MICRO)
}

// What a share of so many units makes in a tick, and a frequency: each loses its own fraction.
pub(crate) fn slew(kind: u64, share: u64) -> u64 {
    to_tick(kind, share % 4294967296 * PHASE_OFFSET)
}

fn drift(kind: u64, frequency: u64) -> u64 {
    to_tick(kind, frequency % 4294967296 * PHASE_FREQUENCY)
}

// The parts that a unit of the phase has: one is what a unit of the frequency makes in a tick.
pub(crate) fn parts(kind: u64) -> u64
    ensures { 0 < result }
{
    if kind == 0 { 16 } else { 64 }
}

// The fraction that a frequency loses in a tick, in parts. Its number is mapped, as the frequency is.
pub(crate) fn lost(kind: u64, frequency: u64) -> u64 {
    let f = Signed::unmapped(frequency);
    let second = f.size % 4294967296 * PHASE_FREQUENCY;
    Signed::new(f.negative, second % rate(kind) / PHASE_FREQUENCY).mapped()
}

// So many units of the phase in parts.
pub(crate) fn in_parts(kind: u64, v: Signed) -> Signed {
    Signed::new(v.negative, v.size.saturating_mul(parts(kind)))
}

// The adjustment that lies so far from that of a clock with no share and no frequency. Its number is mapped,
// as the distance is.
pub(crate) fn adjustment_at(kind: u64, distance: u64) -> u64 {
    (beyond(kind) + Signed::unmapped(distance)).mapped()
}

// The adjustment of a share and a frequency, whose number is mapped.
pub(crate) fn adjustment_of(kind: u64, share: Signed, frequency: u64) -> u64 {
    let f = Signed::unmapped(frequency);
    let slewed = Signed::new(share.negative, slew(kind, share.size));
    let drifted = Signed::new(f.negative, drift(kind, f.size));
    adjustment_at(kind, (slewed + drifted).mapped())
}

// How far the largest share and the largest frequency lead, to either side.
pub(crate) fn farthest(kind: u64) -> u64 {
    slew(kind, LARGEST_SHARE).saturating_add(drift(kind, LARGEST_FREQUENCY))
}

// Whether an adjustment lies no farther than that.
pub(crate) fn reached(kind: u64, adjustment: u64) -> bool {
    let distance = Signed::unmapped(adjustment) - beyond(kind);
    distance.size <= farthest(kind)
}

// An end of the adjustment's range.
pub(crate) fn end_of(kind: u64, lower: bool) -> u64 {
    adjustment_at(kind, Signed::new(lower, farthest(kind)).mapped())
}
