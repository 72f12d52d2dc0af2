// What a record holds: the version, and the numbers in their order.
ghost use Rattle.std.specs.Prelude.{◌≡◌};
ghost use Rattle.record.specs.Layout.{numbers_of};

use state::Clock;

// The version that is written, and the last of those that are read: they are 1 to 4. A number and no enum,
// since what a record holds is asked by order, from a version on.
pub(crate) const VERSION: u32 = 4;

// The first versions that hold the kind of the device, and remainder and leftover.
pub(crate) const KIND_SINCE: u32 = 3;

pub(crate) const PARTS_SINCE: u32 = 4;

// How many numbers a record has that is written.
pub(crate) const NUMBERS: usize = 16;

// The numbers of a clock's record.
pub(crate) fn numbers(c: Clock) -> [u32; NUMBERS]
    ensures { result ≡ numbers_of c }
{
    let phase = number::map(c.phase.0);
    let offset = number::map(c.offset.0);
    let frequency = number::map(c.frequency.0);
    let adjustment = number::map(c.adjustment.0);
    let remainder = number::map(c.remainder.0);
    let leftover = number::map(c.leftover.0);
    [
        VERSION,
        u32::from(c.kind),
        c.seconds,
        c.micros.0,
        phase,
        offset,
        frequency,
        adjustment,
        u32::from(c.constant),
        u32::from(c.updated),
        c.interval,
        c.maxerror.0,
        c.esterror.0,
        u32::from(c.status),
        remainder,
        leftover,
    ]
}
