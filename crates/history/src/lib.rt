// Histories: events in the number form of saved records, one after the other. `read` takes the event at a
// place of any bytes.
#![tactic(auto)]

ghost use Rattle.std.specs.Prelude.{◌≡◌, ◌<◌, ◌%◌};
ghost use Rattle.number.specs.Reading.{told as Number·told};
ghost use Rattle.history.specs.declared.Event.TheVariants.{Call};
ghost use Rattle.history.specs.Event.{found, told, offset_asked, frequency_asked, field_at, ticks_at, setting_at, request_at, summary_at, event_at, asks_summary};

use number::{Number, unmap};
use request::{
    ADJ_ESTERROR, ADJ_FREQUENCY, ADJ_MAXERROR, ADJ_OFFSET, ADJ_STATUS, ADJ_TIMECONST,
    AskedFrequency, AskedOffset, Request,
};
use state::{AskedMicros, Refusal};

// An event of a history.
#[derive(Clone, Copy, Debug, PartialEq, Eq)]
pub enum Event {
    // so many single ticks, up to the first refusal
    Ticks(u64),
    // that the summary is printed after the last event: the first event alone can be this
    Summary,
    // a setting, a request whose fields that the mode does not select are 0, or a reading, which is a print
    Call(event::Call),
}

// An event that was read, and the place after it.
#[derive(Clone, Copy, Debug, PartialEq, Eq)]
pub struct Entry {
    pub event: Event,
    pub next: usize,
}

fn called(call: event::Call, next: usize) -> Result<Entry, Refusal>
    ensures { told result ≡ found (Call call) next }
{
    Ok(Entry {
        event: Event::Call(call),
        next: next,
    })
}

// The arguments of each event, from the place after its code on. Bytes and place are two parameters, as
// `number::read` takes them.
fn ticks_at(bytes: &[u8], at: usize) -> Result<Entry, Refusal>
    ensures { told result ≡ ticks_at bytes.now at }
{
    let count = number::read(bytes, at)?;
    Ok(Entry {
        event: Event::Ticks(count.value),
        next: count.next,
    })
}

fn setting_at(bytes: &[u8], at: usize) -> Result<Entry, Refusal>
    ensures { told result ≡ setting_at bytes.now at }
{
    let seconds = number::read(bytes, at)?;
    let micros = number::read(bytes, seconds.next)?;
    called(
        event::Call::Setting(seconds.value, AskedMicros(micros.value)),
        micros.next,
    )
}

// The field that a bit of the mode selects; else 0, of no bytes. The bit is a number, one of ADJ_.., and is
// tested here: the test that `request` has is its own, since it asks for a bit that is not 0.
fn field_at(bytes: &[u8], at: usize, mode: u64, bit: u64) -> Result<Number, Refusal>
    requires { 0 < bit }
    ensures { Number·told result ≡ field_at mode bit bytes.now at }
{
    if mode / bit % 2 == 1 {
        return number::read(bytes, at);
    }
    Ok(Number { value: 0, next: at })
}

// What a field's number stands for, mapped. Functions and no conversions of the types: only a history
// writes an offset or a frequency so.
fn offset_of(n: u64) -> AskedOffset
    ensures { result ≡ offset_asked n }
{
    AskedOffset(unmap(n))
}

fn frequency_of(n: u64) -> AskedFrequency
    ensures { result ≡ frequency_asked n }
{
    AskedFrequency(unmap(n))
}

// A mode above 63 brings the fields of mode mod 64, before the request is refused for it.
fn field_bits(mode: u64) -> u64
    ensures { result ≡ mode % 64 }
{
    mode % 64
}

fn request_at(bytes: &[u8], at: usize) -> Result<Entry, Refusal>
    ensures { told result ≡ request_at bytes.now at }
{
    let mode = number::read(bytes, at)?;
    let bits = field_bits(mode.value);
    let offset = field_at(bytes, mode.next, bits, ADJ_OFFSET)?;
    let frequency = field_at(bytes, offset.next, bits, ADJ_FREQUENCY)?;
    let maxerror = field_at(bytes, frequency.next, bits, ADJ_MAXERROR)?;
    let esterror = field_at(bytes, maxerror.next, bits, ADJ_ESTERROR)?;
    let status = field_at(bytes, esterror.next, bits, ADJ_STATUS)?;
    let constant = field_at(bytes, status.next, bits, ADJ_TIMECONST)?;
    let request = Request {
        mode: mode.value,
        offset: offset_of(offset.value),
        frequency: frequency_of(frequency.value),
        maxerror: AskedMicros(maxerror.value),
        esterror: AskedMicros(esterror.value),
        status: status.value,
        constant: constant.value,
    };
    called(event::Call::Request(request), constant.next)
}

// The summary is asked for at place 0 alone, where the event's first byte is.
fn summary_at(start: usize, at: usize) -> Result<Entry, Refusal>
    ensures { told result ≡ summary_at start at }
{
    if start == 0 {
        return Ok(Entry {
            event: Event::Summary,
            next: at,
        });
    }
    Err(Refusal::Field)
}

// The event that starts at `at`; or the refusal, 10, 11 or 12. Codes are matched as numbers: any may come.
pub fn read(bytes: &[u8], at: usize) -> Result<Entry, Refusal>
    ensures { told result ≡ event_at bytes.now at }
{
    let code = number::read(bytes, at)?;
    match code.value {
        0 => ticks_at(bytes, code.next),
        1 => setting_at(bytes, code.next),
        2 => request_at(bytes, code.next),
        3 => called(event::Call::Reading, code.next),
        4 => summary_at(at, code.next),
        _ => Err(Refusal::Field),
    }
}

// The code of the event that asks for the summary: its one written form is one byte.
const SUMMARY: u8 = 4;

// Whether the first event asks for the summary.
pub fn asks_summary(bytes: &[u8]) -> bool
    ensures { result ≡ asks_summary bytes.now }
{
    bytes.first() == Some(&SUMMARY)
}
