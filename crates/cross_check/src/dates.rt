// Document 01's UTC label and its lines, a second time: days are counted off year by year and month by month,
// a date and time is one number of fourteen digits, and a text is a pattern whose zeros are replaced by
// digits from the last to the first.
use crate::refusals::Refusal;
use crate::rules::State;

const LABEL: [u8; 20] = *b"0000-00-00T00:00:00Z";

// A place in a calendar: the year or month, and the days passed in it.
#[derive(Clone, Copy)]
struct Place {
    period: u64,
    days: u64,
}

fn year_days(year: u64) -> u64 {
    let leap = year % 4 == 0 && (year % 100 != 0 || year % 400 == 0);
    365 + u64::from(leap)
}

fn month_days(year: u64, month: u64) -> u64 {
    match month {
        2 => year_days(year).saturating_sub(337),
        4 | 6 | 9 | 11 => 30,
        _ => 31,
    }
}

// Where so many days from the begin of a period lead, counted off period by period: to the last one at most.
fn counted_off<F: Fn(u64) -> u64>(from: u64, last: u64, days: u64, days_of: F) -> Place
    requires { F.IsAlwaysCallable days_of }
{
    let mut days = days;
    for period in from..last {
        let Some(left) = days.checked_sub(days_of(period)) else {
            return Place { period, days };
        };
        days = left;
    }
    Place { period: last, days }
}

// Two more digits at the end of a number.
fn joined(high: u64, low: u64) -> u64 {
    high % 1000000000000 * 100 + low % 100
}

// The date of a second, eight digits.
pub(crate) fn date_of(second: u64) -> u64 {
    let year = counted_off(1970, 2200, second / 86400, year_days);
    let month = counted_off(1, 12, year.days, |month| month_days(year.period, month));
    joined(
        joined(year.period, month.period),
        month.days.saturating_add(1),
    )
}

// The date and time of a second, fourteen digits; `sixty` has its second read 60.
pub(crate) fn stamp_of(second: u64, sixty: bool) -> u64 {
    let hour = joined(date_of(second), second % 86400 / 3600);
    let minute = joined(hour, second % 3600 / 60);
    joined(minute, if sixty { 60 } else { second % 60 })
}

// Replaces the zeros of a text by the digits of n, the last one first.
pub(crate) fn fill(text: &mut [u8], n: u64) {
    let mut rest = n;
    for b in text.iter_mut().rev() {
        if *b == b'0' {
            *b = b'0' + (rest % 10) as u8;
            rest /= 10;
        }
    }
}

// The pattern with its zeros replaced by the digits of n.
pub(crate) fn filled<const N: usize>(pattern: [u8; N], n: u64) -> [u8; N] {
    let mut text = pattern;
    fill(&mut text, n);
    text
}

pub(crate) fn label_of(second: u64, sixty: bool) -> [u8; 20] {
    filled(LABEL, stamp_of(second, sixty))
}

// A clock's date and time: status OOP in the last second of a day reads 60.
pub(crate) fn clock_stamp(s: State) -> u64 {
    stamp_of(s.seconds, s.status == 3 && s.seconds % 86400 == 86399)
}

pub(crate) fn clock_label(s: State) -> [u8; 20] {
    filled(LABEL, clock_stamp(s))
}

// The number that stands where a label has its digits, whatever the bytes are.
fn digits_of(text: &[u8]) -> u64 {
    let pattern = LABEL;
    let mut n: u64 = 0;
    for (b, p) in text.iter().zip(pattern.iter()) {
        if *p == b'0' {
            n = n % 100000000000000 * 10 + u64::from(*b % 16 % 10);
        }
    }
    n
}

// The days of a year before the first of a month, without a leap day.
fn days_in_year(month: u64) -> u64 {
    match month {
        2 => 31,
        3 => 59,
        4 => 90,
        5 => 120,
        6 => 151,
        7 => 181,
        8 => 212,
        9 => 243,
        10 => 273,
        11 => 304,
        12 => 334,
        _ => 0,
    }
}

// The days before the first of a month, given as six digits of any value: 2100 is the one fourth year that is
// no leap year.
fn days_before(month: u64) -> u64 {
    let years = (month / 100).saturating_sub(1970) % 1024;
    let leaps = (years + if month % 100 < 3 { 1 } else { 2 }) / 4;
    let days = years * 365 + days_in_year(month % 100) % 512 + leaps;
    days.saturating_sub(u64::from(210002 < month))
}

// The second of a date and time of fourteen digits, of any value; a 60 stands for the second before it.
fn second_of(stamp: u64) -> u64 {
    let days = days_before(stamp / 100000000) % 65536 + stamp / 1000000 % 100;
    let hours = days.saturating_sub(1) % 65536 * 24 + stamp / 10000 % 100;
    let minutes = hours % 4194304 * 60 + stamp / 100 % 100;
    let second = minutes % 268435456 * 60 + stamp % 100;
    second.saturating_sub(u64::from(stamp % 100 == 60))
}

#[derive(Clone, Copy)]
pub(crate) struct Label {
    pub(crate) second: u64,
    pub(crate) sixty: bool,
}

// The label that a text holds: it is one where some second is written so.
pub(crate) fn read(text: &[u8]) -> Result<Label, Refusal> {
    let stamp = digits_of(text);
    let second = second_of(stamp);
    let sixty = stamp % 100 == 60;
    let fits = second < 4294967296 && (!sixty || second % 86400 == 86399);
    let label = label_of(second, sixty);
    if fits && text == label.as_slice() {
        Ok(Label { second, sixty })
    } else {
        Err(Refusal::Label)
    }
}
