// An event on one clock of a lent table. The event is a code and numbers, since an enum cannot cross to C.
ghost use Rattle.std.specs.Prelude.{◌≡◌};
ghost use Rattle.heukelvos_rig.specs.RigEvent.{coded_answer_at, coded_table_at, EventOf};

use clock::{AskedMicros, Clock};
use event::{Call, Event};
use request::Request;
use rig::{Answer, bare_answer, event_on, table_answer};
use state::Refusal;

// An event. Code 0 is a tick, 1 a setting to `seconds` and `micros`, 2 the request, 3 a reading, 4 a catch-up
// of up to `ceiling` ticks that may `stop` at a rollover. Only the numbers of its code are looked at.
#[repr(C)]
#[derive(Clone, Copy, Debug, PartialEq, Eq)]
pub struct CodedEvent {
    pub code: u64,
    pub seconds: u64,
    pub micros: AskedMicros,
    pub request: Request,
    pub ceiling: u64,
    pub stop: bool,
}

// The event of a code; or refusal 12, of an unknown one.
impl TryFrom<CodedEvent> for Event {
    type Error = Refusal;

    ghost try_from_gives = { EventOf };

    fn try_from(e: CodedEvent) -> Result<Self, Refusal> {
        match e.code {
            0 => Ok(Event::Call(Call::Tick)),
            1 => Ok(Event::Call(Call::Setting(e.seconds, e.micros))),
            2 => Ok(Event::Call(Call::Request(e.request))),
            3 => Ok(Event::Call(Call::Reading)),
            4 => Ok(Event::CatchUp(e.ceiling, e.stop)),
            _ => Err(Refusal::Field),
        }
    }
}

// 12 for an unknown code, then 19, then 18, before any clock is looked at; then what the event answers on the
// clock at the place, which is copied out, and stored back where the event was accepted; a refused call
// stores nothing. In C the table is a pointer and a number of clocks.
#[unsafe(no_mangle)]
pub extern "C" fn heukelvos_event_at(table: &mut [Clock], place: usize, e: CodedEvent) -> Answer
    ensures { (result ≡ coded_answer_at table.old place e) × (table.new ≡ coded_table_at table.old place e) }
{
    let event = match Event::try_from(e) {
        Ok(event) => event,
        Err(refusal) => return bare_answer(refusal.number()),
    };
    let refused = table_answer(table.len(), place);
    if refused.refusal != 0 {
        return refused;
    }
    let done = event_on(table[place], event);
    if done.answer.refusal != 0 {
        return done.answer;
    }
    table[place] = done.clock;
    done.answer
}
