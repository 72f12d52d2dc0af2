// The calls by value: each is the call of its crate, for C.
ghost use Rattle.std.specs.Prelude.{◌≡◌};
ghost use Rattle.state.specs.Fresh.{fresh_of};
ghost use Rattle.clock.specs.Reading.{told_of};
ghost use Rattle.clock.specs.Setting.{setting_of};
ghost use Rattle.state.specs.State.{in_range};
ghost use Rattle.clock.specs.Tick.{tick_of};
ghost use Rattle.state.specs.Units.{asked_micros};
ghost use Rattle.clock.specs.Ticks.{catch_up_of};
ghost use Rattle.request.specs.Request.{request_of};
ghost use Rattle.label.specs.Writing.{write_refusal, written_to};

use clock::{AskedMicros, CaughtUp, Clock, Outcome, Told};
use request::Request;

// The greatest number that `clock::fresh` can be given, and no kind.
const LAST_BYTE: u64 = 255;

// C cuts a number to the width of its argument and says nothing: so the kind is a number of 64 bits and no
// enum, and judged before it is cut.
#[unsafe(no_mangle)]
pub extern "C" fn heukelvos_fresh(kind: u64) -> Outcome
    ensures { result ≡ fresh_of kind }
{
    if LAST_BYTE < kind {
        return clock::fresh(LAST_BYTE as u8);
    }
    clock::fresh(kind as u8)
}

#[unsafe(no_mangle)]
pub extern "C" fn heukelvos_in_range(c: Clock) -> bool
    ensures { result ≡ in_range c }
{
    clock::in_range(c)
}

// By a run of one tick: so `clock::tick` has one caller in the library, `heukelvos_tick_in_place`, and is put
// into it. With two it is a call there, and copies the clock twice.
#[unsafe(no_mangle)]
pub extern "C" fn heukelvos_tick(c: Clock) -> Outcome
    ensures { result ≡ tick_of c }
{
    clock::run_ticks(c, 1)
}

#[unsafe(no_mangle)]
pub extern "C" fn heukelvos_catch_up(c: Clock, ceiling: u64, stop: bool) -> CaughtUp
    ensures { result ≡ catch_up_of c ceiling stop }
{
    clock::catch_up(c, ceiling, stop)
}

#[unsafe(no_mangle)]
pub extern "C" fn heukelvos_set(c: Clock, seconds: u64, micros: u64) -> Outcome
    ensures { result ≡ setting_of c seconds (asked_micros micros) }
{
    clock::set(c, seconds, AskedMicros(micros))
}

#[unsafe(no_mangle)]
pub extern "C" fn heukelvos_adjust(c: Clock, r: Request) -> Outcome
    ensures { result ≡ request_of c r }
{
    request::adjust(c, r)
}

#[unsafe(no_mangle)]
pub extern "C" fn heukelvos_read(c: Clock) -> Told
    ensures { result ≡ told_of c }
{
    clock::read(c)
}

// `out` is a pointer and a length in C, which reads the refusal as its number, or 0.
#[unsafe(no_mangle)]
pub extern "C" fn heukelvos_label(c: Clock, out: &mut [u8]) -> u8
    ensures value { result ≡ write_refusal c out.old }
    ensures out_after { out.new ≡ written_to c out.old }
{
    match label::write(c, out) {
        Ok(()) => 0,
        Err(refusal) => refusal.number(),
    }
}
