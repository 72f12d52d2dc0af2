// An event on a clock, and the summary moved with it.
ghost use Rattle.std.specs.Prelude.{◌≡◌, true, nat_abs};
ghost use Rattle.state.specs.State.{within, greatest_offset};
ghost use Rattle.event.specs.Event.{answer_of, step_of};
ghost use Rattle.summary.specs.Summary.{after_call, MovedInPlace, summed_of};

use crate::cells::Summary;
use clock::Clock;
use event::{Call, Event, Stepped};
use request::{ADJ_OFFSET, AskedOffset};

// The size of an offset that a request may ask for (us).
fn size_of(o: AskedOffset) -> u32
    requires { within greatest_offset o.0 ≡ true }
    ensures { result ≡ nat_abs o.0 }
{
    o.0.unsigned_abs() as u32
}

// Counts the offset of an accepted call, if it has one. The bit is tested here: the test that `request` has
// is its own, since it asks for a bit that is not 0.
fn count_call(c: Clock, call: Call, m: &mut Summary)
    requires { (answer_of c call).refusal ≡ 0 }
    ensures { m.new ≡ after_call c call m.old }
{
    if let Call::Request(r) = call {
        if r.mode / ADJ_OFFSET % 2 == 1 {
            m.add(c.seconds, size_of(r.offset));
        }
    }
}

// Counts the offset of an event that was answered with a refusal, or 0, as `Stepped` holds it, on the clock
// that it got.
fn count_event(c: Clock, e: Event, refusal: u8, m: &mut Summary)
    requires { refusal ≡ (step_of c e).refusal }
    ensures { MovedInPlace c e m.old m.new }
{
    if refusal != 0 {
        return;
    }
    match e {
        Event::Call(call) => count_call(c, call, m),
        Event::CatchUp(_, _) => {}
    }
}

// An event on a clock, and the lent summary moved with it: it is not copied.
pub fn step_in_place(c: Clock, e: Event, m: &mut Summary) -> Stepped
    ensures value { result ≡ step_of c e }
    ensures moved_in_place { MovedInPlace c e m.old m.new }
{
    let stepped = event::step(c, e);
    count_event(c, e, stepped.refusal, m);
    stepped
}

// The answer of an event, and the summary after it.
#[derive(Clone, Copy, Debug, PartialEq, Eq)]
pub struct Summed {
    pub stepped: Stepped,
    pub summary: Summary,
}

// An event on a clock, and the summary moved with it.
pub fn step(c: Clock, e: Event, mut m: Summary) -> Summed
    ensures { result ≡ summed_of c e m }
{
    let stepped = step_in_place(c, e, &mut m);
    Summed {
        stepped,
        summary: m,
    }
}
