ghost use Rattle.std.specs.Prelude.{◌≡◌};
ghost use Rattle.clock.specs.Reading.{no_reading};
ghost use Rattle.event.specs.Event.{step_with, step_many, answer_of, step_of};

use clock::{
    AskedMicros, CaughtUp, Clock, Micros, Outcome, Reading, TIME_BAD, catch_up, read, set, tick,
};
use request::{Request, adjust};

// A single call on a clock.
#[derive(Clone, Copy, Debug, PartialEq, Eq)]
pub enum Call {
    Tick,
    // the seconds and the microseconds to set
    Setting(u64, AskedMicros),
    Request(Request),
    Reading,
}

// What can happen to a clock.
#[derive(Clone, Copy, Debug, PartialEq, Eq)]
pub enum Event {
    Call(Call),
    // many ticks in one call: the ceiling, and whether to stop after the tick that rolls the second over
    CatchUp(u64, bool),
}

// The answer of an event: refusal 0 where it was accepted, else its number in the table of refusals; the
// clock after it; and what the clock shows where the event is an accepted reading, else zeros and status 4.
// Of a catch-up also how many ticks were accepted, and the refusal of the tick that ended them, or 0; of a
// single call both are 0. A struct and no Result: `Answers` of bounds/specs/Calls.antt, over which the
// theorem `demand3` is stated, has the clock of a refused event too.
#[derive(Clone, Copy, Debug, PartialEq, Eq)]
pub struct Stepped {
    pub refusal: u8,
    pub count: u64,
    pub tick_refusal: u8,
    pub clock: Clock,
    pub reading: Reading,
}

// As `clock::read` answers where it is refused; it has no name there, since a public constant would want a
// promise.
const NO_READING: Reading = Reading {
    seconds: 0,
    micros: Micros(0),
    status: TIME_BAD,
    maxerror: Micros(0),
    esterror: Micros(0),
};

// What an event answers that is no accepted reading: zeros and status 4.
pub fn no_reading() -> Reading
    ensures { result ≡ no_reading }
{
    NO_READING
}

// The answer of a tick, a setting or a request.
impl From<Outcome> for Stepped {
    ghost from_gives = { λ o s. s ≡ step_with o };

    fn from(o: Outcome) -> Self {
        Stepped {
            refusal: o.refusal,
            count: 0,
            tick_refusal: 0,
            clock: o.clock,
            reading: NO_READING,
        }
    }
}

// The answer of many ticks in one call.
impl From<CaughtUp> for Stepped {
    ghost from_gives = { λ m s. s ≡ step_many m };

    fn from(m: CaughtUp) -> Self {
        Stepped {
            refusal: m.refusal,
            count: m.count,
            tick_refusal: m.tick_refusal,
            clock: m.clock,
            reading: NO_READING,
        }
    }
}

fn step_call(c: Clock, call: Call) -> Stepped
    ensures { result ≡ answer_of c call }
{
    match call {
        Call::Tick => tick(c).into(),
        Call::Setting(seconds, micros) => set(c, seconds, micros).into(),
        Call::Request(r) => adjust(c, r).into(),
        Call::Reading => {
            let told = read(c);
            Stepped {
                refusal: told.refusal,
                count: 0,
                tick_refusal: 0,
                clock: c,
                reading: told.reading,
            }
        }
    }
}

// An event on a clock: the same as the call for it.
pub fn step(c: Clock, e: Event) -> Stepped
    ensures { result ≡ step_of c e }
{
    match e {
        Event::Call(call) => step_call(c, call),
        Event::CatchUp(ceiling, stop) => catch_up(c, ceiling, stop).into(),
    }
}
