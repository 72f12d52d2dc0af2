// A call on a table of clocks, by value: what the table refuses, and the event on the clock that is copied
// out of it. The caller stores the clock back where the event was accepted. `heukelvos_event_at` does so in a
// table that is lent.
ghost use Rattle.std.specs.Prelude.{◌≡◌};
ghost use Rattle.state.specs.Refusal.{refusal_of};
ghost use Rattle.event.specs.Event.{step_of};
ghost use Rattle.rig.specs.Rig.{bare_answer, most_clocks, parted, table_refusal};

use clock::{Clock, Reading};
use event::{Event, Stepped, no_reading, step};
use state::Refusal;

// The most clocks of a table.
pub const MAX_CLOCKS: usize = 8;

// Its contract promises the constant to those who use it by its name.
pub fn most_clocks() -> usize
    ensures value { result ≡ most_clocks }
    ensures max_clocks_value { MAX_CLOCKS ≡ most_clocks }
{
    MAX_CLOCKS
}

// What an event answers beside the clock, which stays in the table: refusal 0 where it was accepted, else its
// number; of a catch-up how many ticks were accepted, and the refusal of the tick that ended them, or 0; and
// of an accepted reading what the clock shows, else zeros and status 4. Its refusals are numbers, since C
// reads it by value.
#[repr(C)]
#[derive(Clone, Copy, Debug, PartialEq, Eq)]
pub struct Answer {
    pub refusal: u8,
    pub count: u64,
    pub tick_refusal: u8,
    pub reading: Reading,
}

// An answer, and the clock that goes back to its place.
#[derive(Clone, Copy, Debug, PartialEq, Eq)]
pub struct Parted {
    pub answer: Answer,
    pub clock: Clock,
}

impl From<Stepped> for Parted {
    ghost from_gives = { λ r p. p ≡ parted r };

    fn from(r: Stepped) -> Self {
        Parted {
            answer: Answer {
                refusal: r.refusal,
                count: r.count,
                tick_refusal: r.tick_refusal,
                reading: r.reading,
            },
            clock: r.clock,
        }
    }
}

// An answer that has nothing but its refusal: of a call that is refused; or 0, of one that is not refused so
// far.
pub fn bare_answer(refusal: u8) -> Answer
    ensures { result ≡ bare_answer refusal }
{
    Answer {
        refusal,
        count: 0,
        tick_refusal: 0,
        reading: no_reading(),
    }
}

// Whether a table of so many clocks takes an event at a place, whichever they are.
fn judged(clocks: usize, place: usize) -> Result<(), Refusal>
    ensures { refusal_of result ≡ table_refusal clocks place }
{
    if MAX_CLOCKS < clocks {
        return Err(Refusal::Table);
    }
    if clocks <= place {
        return Err(Refusal::Place);
    }
    Ok(())
}

// What a table of so many clocks answers to an event at a place before any of them is looked at: refusal 19,
// 18, or 0 where the event goes to the clock there. It answers 0 too, and no Result: a rig in this language
// goes by it, as docs/REFERENCE.md says.
pub fn table_answer(clocks: usize, place: usize) -> Answer
    ensures { result ≡ bare_answer (table_refusal clocks place) }
{
    match judged(clocks, place) {
        Ok(()) => bare_answer(0),
        Err(refusal) => bare_answer(refusal.number()),
    }
}

// The event on the clock at the place, its answer apart from the clock, which is the one to store: where the
// event is refused, the one that was there.
pub fn event_on(c: Clock, e: Event) -> Parted
    ensures { result ≡ parted (step_of c e) }
{
    step(c, e).into()
}
