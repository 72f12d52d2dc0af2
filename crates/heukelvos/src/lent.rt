// The calls on a lent clock, for a timer handler. Each is the call by value on a copy of the clock, and
// stores what that hands back; a refused call stores nothing.
ghost use Rattle.std.specs.Prelude.{◌≡◌};
ghost use Rattle.clock.specs.Tick.{tick_of};
ghost use Rattle.clock.specs.Ticks.{catch_up_of};
ghost use Rattle.heukelvos.specs.Lent.{Kept, counted};

use clock::{CaughtUp, Clock};

// One tick. The refusal is told as its number, which C reads.
#[unsafe(no_mangle)]
pub extern "C" fn heukelvos_tick_in_place(c: &mut Clock) -> u8
    ensures { (result ≡ (tick_of c.old).refusal)
        × (c.new ≡ (tick_of c.old).clock)
        × Kept result c.old c.new }
{
    let done = clock::tick(*c);
    if done.refusal == 0 {
        *c = done.clock;
    }
    done.refusal
}

// What a catch-up answers beside the clock: the refusal of the call, how many ticks were accepted, and the
// refusal of the tick that ended them, or 0. Its refusals are numbers, since C reads it by value.
#[repr(C)]
#[derive(Clone, Copy, Debug, PartialEq, Eq)]
pub struct Counted {
    pub refusal: u8,
    pub count: u64,
    pub tick_refusal: u8,
}

impl From<CaughtUp> for Counted {
    ghost from_gives = { λ r answer. answer ≡ counted r };

    fn from(r: CaughtUp) -> Self {
        Counted {
            refusal: r.refusal,
            count: r.count,
            tick_refusal: r.tick_refusal,
        }
    }
}

// Up to `ceiling` ticks, to the first that is refused; where `stop`, to the tick that rolls the second over.
#[unsafe(no_mangle)]
pub extern "C" fn heukelvos_catch_up_in_place(c: &mut Clock, ceiling: u64, stop: bool) -> Counted
    ensures { (result ≡ counted (catch_up_of c.old ceiling stop))
        × (c.new ≡ (catch_up_of c.old ceiling stop).clock)
        × Kept result.refusal c.old c.new }
{
    let done = clock::catch_up(*c, ceiling, stop);
    if done.refusal == 0 {
        *c = done.clock;
    }
    done.into()
}
