ghost use Rattle.std.specs.Prelude.{◌≡◌, true, ◌≤◌, ◌<◌, pos};
ghost use Rattle.state.specs.Units.{micros, offset_units};
ghost use Rattle.state.specs.Device.{device_of};
ghost use Rattle.state.specs.State.{within, last_second};
ghost use Rattle.clock.specs.Rollover.{maxerror_grown, interval_grown, share_divisor, share, rolled_over};
ghost use Rattle.clock.specs.Inner.{greatest_share, increments_for, leap_of};

use crate::sound::Sound;
use state::{
    Clock, MAX_ERROR, MAX_INTERVAL, Micros, OffsetUnits, PhaseParts, PhaseUnits, SECONDS_PER_DAY,
    TIME_DEL, TIME_INS, TIME_OK, TIME_OOP,
};

// README.kern's tolerance of 100 ppm: what a second may add to the maximum error (us).
const TOLERANCE: u32 = 100;

// What a share is of the offset that is left, at time constant 0.
const SHARE_DIVISOR: i32 = 1024;

// `label` has this number too, in private: a public constant would want a promise.
const LAST_SECOND_OF_DAY: u32 = SECONDS_PER_DAY - 1;

// The second and the status that a leap step leads to.
#[derive(Clone, Copy)]
struct Leap {
    seconds: u32,
    status: u8,
}

// The step of a status that may have one.
fn stepped(status: u8, s: u32) -> Leap
    requires { (0 < s) × (s ≤ last_second) }
    ensures { result ≡ leap_of status s }
{
    match status {
        TIME_INS if s % SECONDS_PER_DAY == 0 => Leap {
            seconds: s - 1,
            status: TIME_OOP,
        },
        TIME_DEL if s % SECONDS_PER_DAY == LAST_SECOND_OF_DAY => Leap {
            seconds: s + 1,
            status: TIME_OK,
        },
        TIME_OOP => Leap {
            seconds: s,
            status: TIME_OK,
        },
        _ => Leap { seconds: s, status },
    }
}

// The step at a status, when the rollover has reached second s. The codes that may step are one arm: nearly
// every second ends OK or BAD, which then costs one test and not three (with one match a second of ticks
// takes 138 instructions for 126). A status is a number, as C hands it over, and so it is matched.
fn leap_step(status: u8, s: u32) -> Leap
    requires { (0 < s) × (s ≤ last_second) }
    ensures { result ≡ leap_of status s }
{
    match status {
        TIME_INS | TIME_DEL | TIME_OOP => stepped(status, s),
        _ => Leap { seconds: s, status },
    }
}

impl Sound {
    // The maximum error a second later.
    fn maxerror_grown(self) -> Micros
        ensures { result ≡ micros (maxerror_grown self.clock.maxerror.0) }
    {
        Micros((self.clock.maxerror.0 + TOLERANCE).min(MAX_ERROR))
    }

    // The interval since the earlier update, a rollover later. Without one its limit is 0, and it stays 0.
    fn interval_grown(self) -> u32
        ensures { result ≡ interval_grown self.clock.updated self.clock.interval }
    {
        let n = self.clock.interval;
        if n < self.clock.updated as u32 * MAX_INTERVAL {
            return n + 1;
        }
        n
    }

    fn share_divisor(self) -> i32
        ensures { result ≡ pos (share_divisor self.clock.constant) }
    {
        SHARE_DIVISOR << self.clock.constant
    }

    fn share(self) -> OffsetUnits
        ensures { result ≡ offset_units (share self.clock) }
    {
        OffsetUnits(self.clock.offset.0 / self.share_divisor())
    }

    // What each tick adds with a share in force: the adjustment to the phase, the remainder to the leftover.
    pub(crate) fn increments(self, share: OffsetUnits) -> (PhaseUnits, PhaseParts)
        requires { within greatest_share share.0 ≡ true }
        ensures { result ≡ increments_for (device_of self.clock.kind) share.0 self.clock.frequency.0 }
    {
        let frequency = self.divide(self.clock.frequency.0);
        let device = self.device();
        let adjustment = device.scale as i32 * share.0 + frequency.quotient.0 + device.base.0;
        (PhaseUnits(adjustment), frequency.remainder)
    }

    // A rollover: second_overflow() of RFC 1589. The leap step is looked for behind the increments: before
    // them it costs a tick two instructions more.
    pub(crate) fn rollover(self) -> Sound
        requires { self.clock.seconds < last_second }
        ensures { result.clock ≡ rolled_over self.clock }
    {
        let share = self.share();
        let (adjustment, remainder) = self.increments(share);
        let leap = leap_step(self.clock.status, self.clock.seconds + 1);
        let clock = Clock {
            seconds: leap.seconds,
            offset: OffsetUnits(self.clock.offset.0 - share.0),
            adjustment,
            interval: self.interval_grown(),
            maxerror: self.maxerror_grown(),
            status: leap.status,
            remainder,
            ..self.clock
        };
        Sound { clock }
    }
}
