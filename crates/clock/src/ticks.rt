// Many ticks in one call.
ghost use Rattle.std.specs.Prelude.{◌≡◌, ◌≤◌};
ghost use Rattle.clock.specs.Ticks.{catch_up_of, greatest_ceiling, ticks_of};

use crate::run::{CaughtUp, run};
use crate::sound::Sound;
use state::{Clock, Outcome, Refusal};

// The most ticks that a catch-up may be asked for.
pub const MAX_CEILING: u64 = 65536;

// Up to `ceiling` ticks, to the first that is refused; where `stop`, to the tick that rolls the second over.
// That no more are accepted follows from the definition, and is promised for a caller who counts down what is
// left.
pub fn catch_up(c: Clock, ceiling: u64, stop: bool) -> CaughtUp
    ensures value { result ≡ catch_up_of c ceiling stop }
    ensures count_le_ceiling { result.count ≤ ceiling }
    ensures max_ceiling_value { MAX_CEILING ≡ greatest_ceiling }
{
    let Some(sound) = Sound::of(c) else {
        return CaughtUp::refused(c, Refusal::State);
    };
    if MAX_CEILING < ceiling {
        return CaughtUp::refused(c, Refusal::Ceiling);
    }
    run(sound, ceiling, stop)
}

// Up to n single ticks. The answer of the first that is refused, with the clock that the accepted ones led
// to; or refusal 0. A clock out of range is refused even where n is 0.
pub fn run_ticks(c: Clock, n: u64) -> Outcome
    ensures { result ≡ ticks_of n c }
{
    let Some(sound) = Sound::of(c) else {
        return Outcome::refused(c, Refusal::State);
    };
    let r = run(sound, n, false);
    Outcome {
        refusal: r.tick_refusal,
        clock: r.clock,
    }
}
