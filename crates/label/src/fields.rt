// The fields of twenty bytes that may be a label: each is judged on its own, and none is trusted.
ghost use Rattle.std.specs.Prelude.{◌≡◌, ◌==◌};
ghost use Rattle.label.specs.Inner.{Alike, pair_of, is_marked, date_at, AlikeDate, time_at, AlikeTime, ShownBy};
ghost use Rattle.label.specs.Label.{inserted_second};

use crate::SIZE;
use crate::units::{HOURS_PER_DAY, LAST_SECOND_OF_DAY, MINUTES_PER_HOUR, SECONDS_PER_MINUTE};
use calendar::Date;

// The digit 0, in ASCII, and ten of it.
const ZERO: u32 = 0x30;

const TEN_ZEROS: u32 = 10 * ZERO;

// More than any four digits say. A number and no Option: it fails the tests that every date and time meets,
// where a None would be asked for at each of seven pairs.
const NO_PAIR: u32 = 10000;

// What an inserted second shows, and the minute of a day that has one at its end.
const INSERTED_SECOND: u32 = 60;

const LAST_MINUTE: u32 = HOURS_PER_DAY * MINUTES_PER_HOUR - 1;

// The number of two decimal digits; 100 or more where a byte is no digit. Not by the library's parser, which
// takes a sign and other widths too.
fn pair(tens: u8, units: u8) -> u32
    ensures { Alike result (pair_of tens units) }
{
    let unit = std::num::wrapping_sub_u32(units as u32, ZERO);
    if 9 < unit {
        return NO_PAIR;
    }
    // Below 100 for a digit in the first byte alone: that one needs no test of its own.
    std::num::wrapping_sub_u32(10 * (tens as u32) + unit, TEN_ZEROS)
}

// The same, and NO_PAIR where a byte is no digit, so that no sum with it is what four digits say.
fn bounded_pair(tens: u8, units: u8) -> u32
    ensures { result ≡ pair_of tens units }
{
    let n = pair(tens, units);
    if n < 100 { n } else { NO_PAIR }
}

// Whether the bytes between the digits are a label's.
pub(crate) fn is_marked(text: &[u8; SIZE]) -> bool
    ensures { result ≡ is_marked text.now }
{
    (text[4] == b'-')
        & (text[7] == b'-')
        & (text[10] == b'T')
        & (text[13] == b':')
        & (text[16] == b':')
        & (text[19] == b'Z')
}

// The date that the digits say; no date where a byte is no digit.
pub(crate) fn date_at(text: &[u8; SIZE]) -> Date
    ensures { AlikeDate result (date_at text.now) }
{
    Date {
        year: 100 * bounded_pair(text[0], text[1]) + bounded_pair(text[2], text[3]),
        month: pair(text[5], text[6]),
        day: pair(text[8], text[9]),
    }
}

// The time of day that a label shows.
#[derive(Clone, Copy)]
pub(crate) struct Time {
    hour: u32,
    minute: u32,
    second: u32,
}

// The time that the digits say; no time where a byte is no digit.
pub(crate) fn time_at(text: &[u8; SIZE]) -> Time
    ensures { AlikeTime result (time_at text.now) }
{
    Time {
        hour: pair(text[11], text[12]),
        minute: pair(text[14], text[15]),
        second: pair(text[17], text[18]),
    }
}

impl Time {
    // The second of a day that shows this time; a 60 is the last one's, shown again.
    pub(crate) fn second_of_day(self) -> Option<u32>
        ensures { ShownBy self.hour self.minute self.second result }
    {
        if (HOURS_PER_DAY <= self.hour) | (MINUTES_PER_HOUR <= self.minute) {
            return None;
        }
        let minutes = MINUTES_PER_HOUR * self.hour + self.minute;
        if SECONDS_PER_MINUTE <= self.second {
            let repeats = self.is_sixty() & (minutes == LAST_MINUTE);
            return repeats.then_some(LAST_SECOND_OF_DAY);
        }
        Some(SECONDS_PER_MINUTE * minutes + self.second)
    }

    pub(crate) fn is_sixty(self) -> bool
        ensures { result ≡ (self.second == inserted_second) }
    {
        self.second == INSERTED_SECOND
    }
}
