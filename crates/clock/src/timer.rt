ghost use Rattle.std.specs.Prelude.{◌≡◌, true, ◌≤◌};
ghost use Rattle.state.specs.State.{in_range};
ghost use Rattle.state.specs.Units.{micros_per_second};
ghost use Rattle.clock.specs.Tick.{rolls_over, tick_of};
ghost use Rattle.clock.specs.Inner.{reached_of, advance_of, moved_to, less_a_second};

use crate::divided::Divided;
use crate::sound::Sound;
use state::{
    Clock, LAST_SECOND, MICROS_PER_SECOND, Micros, Outcome, PHASE_PER_MICRO, PhaseParts,
    PhaseUnits, REFUSED_LAST, REFUSED_STATE,
};

// The microseconds, the phase and the leftover that ticks lead to, before a rollover takes a second off.
#[derive(Clone, Copy)]
pub(crate) struct Advance {
    pub(crate) micros: Micros,
    pub(crate) phase: PhaseUnits,
    pub(crate) leftover: PhaseParts,
}

impl Advance {
    // What a rollover leaves of microseconds that have filled the second.
    pub(crate) fn less_a_second(self) -> Advance
        requires { micros_per_second ≤ self.micros.0 }
        ensures { result ≡ less_a_second self }
    {
        Advance {
            micros: Micros(self.micros.0 - MICROS_PER_SECOND),
            ..self
        }
    }
}

// The clock with the microseconds, the phase and the leftover that its ticks lead to.
fn moved_to(c: Clock, a: Advance) -> Clock
    ensures { result ≡ moved_to c a }
{
    Clock {
        micros: a.micros,
        phase: a.phase,
        leftover: a.leftover,
        ..c
    }
}

impl Sound {
    // The whole phase units that the leftover reaches by a tick, and what they leave of it. It is one unit at
    // most: two comparisons, where a division would take longer than all the rest of a tick.
    fn reached(self) -> Divided
        ensures { result ≡ reached_of self.clock }
    {
        let divisor = self.divisor();
        let parts = self.clock.leftover.0 + self.clock.remainder.0;
        let unit = (divisor <= parts) as i32 - (parts <= -divisor) as i32;
        Divided {
            quotient: PhaseUnits(unit),
            remainder: PhaseParts(parts - unit * divisor),
        }
    }

    // A tick's own, in 32 bits. A jump of one tick would give the same, by a division and in 64.
    fn advance(self) -> Advance
        ensures { result ≡ advance_of self.clock }
    {
        let reached = self.reached();
        let sum = self.clock.phase.0 + self.clock.adjustment.0 + reached.quotient.0;
        let carry = sum / PHASE_PER_MICRO;
        Advance {
            micros: Micros(((self.clock.micros.0 + self.device().tick.0) as i32 + carry) as u32),
            phase: PhaseUnits(sum - carry * PHASE_PER_MICRO),
            leftover: reached.remainder,
        }
    }

    // The clock at a place that lies within its second.
    pub(crate) fn at(self, a: Advance) -> Sound
        requires { in_range (moved_to self.clock a) ≡ true }
        ensures { result.clock ≡ moved_to self.clock a }
    {
        Sound {
            clock: moved_to(self.clock, a),
        }
    }

    // A tick that reaches the end of its second. Apart from `tick`, so that the ticks within a second stay
    // short. The answers are written out here and in `tick`: `Outcome::accepted` and `Outcome::refused` cost
    // each tick three instructions more.
    fn overflow(self, a: Advance) -> Outcome
        requires full { rolls_over self.clock ≡ true }
        requires ticked { a ≡ advance_of self.clock }
        ensures { result ≡ tick_of self.clock }
    {
        if self.clock.seconds == LAST_SECOND {
            return Outcome {
                refusal: REFUSED_LAST,
                clock: self.clock,
            };
        }
        let rolled = self.at(a.less_a_second()).rollover();
        Outcome {
            refusal: 0,
            clock: rolled.clock,
        }
    }
}

// One timer tick: hardclock() of RFC 1589.
pub fn tick(c: Clock) -> Outcome
    ensures { result ≡ tick_of c }
{
    let Some(sound) = Sound::of(c) else {
        return Outcome {
            refusal: REFUSED_STATE,
            clock: c,
        };
    };
    let a = sound.advance();
    if a.micros.0 < MICROS_PER_SECOND {
        return Outcome {
            refusal: 0,
            clock: moved_to(sound.clock, a),
        };
    }
    sound.overflow(a)
}
