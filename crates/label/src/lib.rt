// UTC labels, `1970-01-01T00:00:00Z` to `2106-02-07T06:28:15Z`: `write` fills a lent buffer with a clock's
// label, and `read` accepts exactly what `write` can write.
#![tactic(auto)]

mod fields;
mod text;
mod units;

ghost use Rattle.std.specs.Prelude.{◌≡◌, ◌+◌, ◌*◌, ◌<◌, ◌≤◌, MatchOption, unwrap_or};
ghost use Rattle.state.specs.Refusal.{refusal_of};
ghost use Rattle.state.specs.State.{last_second};
ghost use Rattle.state.specs.Units.{seconds_per_day};
ghost use Rattle.calendar.specs.Calendar.{days};
ghost use Rattle.label.specs.Writing.{write_refusal, written_to, Readable};
ghost use Rattle.label.specs.Reading.{no_label, ReadsAs};

use state::{Clock, REFUSED_LABEL, Refusal, SECONDS_PER_DAY, TIME_OOP, in_range};

// Bytes of a label.
const SIZE: usize = 20;

// Writes the clock's label into the first twenty bytes of `out`, and leaves the later ones. Refuses a clock
// out of range, then a buffer of fewer than twenty bytes, and leaves the buffer as it was.
pub fn write(c: Clock, out: &mut [u8]) -> Result<(), Refusal>
    ensures value { (refusal_of result ≡ write_refusal c out.old) × Readable (refusal_of result) out.old out.new }
    ensures out_after { out.new ≡ written_to c out.old }
{
    if !in_range(c) {
        return Err(Refusal::State);
    }
    let Some(label) = out.first_chunk_mut::<SIZE>() else {
        return Err(Refusal::Room);
    };
    text::put_label(c.seconds, label);
    // The second can read 60 while an inserted one is in progress, which is rare.
    if c.status == TIME_OOP {
        text::put_sixty(c.seconds, label);
    }
    Ok(())
}

// The answer of `read`: refusal 0 with the second and whether it was a 60, which repeats the 59 before it; or
// refusal 15 with second 0 and no 60. It is no Result, since document 01 gives a refused label these values.
#[derive(Clone, Copy, Debug, PartialEq, Eq)]
pub struct UtcSecond {
    pub refusal: u8,
    pub seconds: u32,
    pub sixty: bool,
}

// The answer to bytes that are no label.
const NO_LABEL: UtcSecond = UtcSecond {
    refusal: REFUSED_LABEL,
    seconds: 0,
    sixty: false,
};

// The second since 1970 that is the given one of a day; none past 2106-02-07T06:28:15Z, the last of 32 bits.
fn seconds_of(day: u32, second: u32) -> Option<u32>
    requires { day < days }
    ensures { MatchOption result (last_second < seconds_per_day * day + second) (λ s. (s ≡ seconds_per_day * day + second) × (s ≤ last_second)) }
{
    (SECONDS_PER_DAY * day).checked_add(second)
}

// The second that a label shows; none where the bytes are no label.
fn second_of(text: &[u8]) -> Option<UtcSecond>
    ensures { ReadsAs text.now (unwrap_or result no_label) }
{
    let text = text.as_array::<SIZE>()?;
    if !fields::is_marked(text) {
        return None;
    }
    let day = calendar::day_of(fields::date_at(text))?;
    let time = fields::time_at(text);
    let second = time.second_of_day()?;
    Some(UtcSecond {
        refusal: 0,
        seconds: seconds_of(day, second)?,
        sixty: time.is_sixty(),
    })
}

// The second that a label shows, or refusal 15.
pub fn read(text: &[u8]) -> UtcSecond
    ensures { ReadsAs text.now result }
{
    second_of(text).unwrap_or(NO_LABEL)
}
