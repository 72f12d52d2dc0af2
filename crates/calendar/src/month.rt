// Months of the calendar: the one into which a day falls, the day with which one begins, and how long one is.
// These three stand between the calendar and whatever finds a month: here closed forms, without a loop or a
// table.
ghost use Rattle.std.specs.Prelude.{◌≡◌, ◌≤◌, ◌<◌};
ghost use Rattle.calendar.specs.Calendar.{date_of, month_days, days, first_year};
ghost use Rattle.calendar.specs.Inner.{FallsIn, first_day, last_year};

// Years are counted from 1 March 1968, so that a leap day ends its year, and a year's months are 3 (March) to
// 14 (February).
const BASE_YEAR: u32 = 1968;

// 1 January 1970, counted in days from there.
const BASE_DAYS: u32 = 671;

// The days of four years.
const FOUR_YEARS: u32 = 1461;

// Fractions are counted in 65,536ths: their quotients are shifts.
const WHOLE: u32 = 65536;

// 2100 is taken for a leap year at first: the days from 1 March 2100, day 47,541, on are then one further.
// With this added, a day's number makes a whole from that day on.
const TO_MARCH_2100: u32 = WHOLE - 47541;

// The same for days that are counted from 1 March 1968, a 29 February 2100 among them.
const TO_MARCH_2100_OF_BASE: u32 = WHOLE - 48213;

#[derive(Clone, Copy)]
pub(crate) struct Month {
    pub(crate) year: u32,
    pub(crate) month: u32,
    // The number of the month's first day.
    pub(crate) first: u32,
}

// The month into which a day falls.
pub(crate) fn month_of(day: u32) -> Month
    requires { day < days }
    ensures { FallsIn day result }
{
    let j = day + BASE_DAYS + (day + TO_MARCH_2100) / WHOLE;
    // In quarters of a day each of four years is as long as the others.
    let quarters = 4 * j + 3;
    let y = quarters / FOUR_YEARS;
    let of_year = quarters % FOUR_YEARS / 4;
    // A month has 65,536 / 2,141 = 30.61 days on average, from March to January: the remainder is the day of
    // the month.
    let parts = 2141 * of_year + 197913;
    let m = parts / WHOLE;
    let of_month = parts % WHOLE / 2141;
    // 1 in January and February, months 13 and 14 of the year before.
    let late = (m + 3) / 16;
    Month {
        year: BASE_YEAR + y + late,
        month: m - 12 * late,
        first: day - of_month,
    }
}

// The number of a month's first day.
pub(crate) fn first_of(year: u32, month: u32) -> u32
    requires { (first_year ≤ year) × (year ≤ last_year) × (1 ≤ month) × (month ≤ 12) }
    ensures { date_of result ≡ first_day year month }
{
    // 1 in January and February.
    let early = (18 - month) / 16;
    let y = year - BASE_YEAR - early;
    let m = month + 12 * early;
    // Days before the year, and in it before the month: 979 / 32 = 30.59 days a month, counted from March.
    let j = FOUR_YEARS * y / 4 + (979 * m - 2919) / 32;
    j - BASE_DAYS - (j + TO_MARCH_2100_OF_BASE) / WHOLE
}

// How many days a month has. Of the years here that 4 divides, 2100 alone is no leap year.
pub(crate) fn days_of(year: u32, month: u32) -> u32
    requires { (first_year ≤ year) × (year ≤ last_year) × (1 ≤ month) × (month ≤ 12) }
    ensures { result ≡ month_days year month }
{
    // 31 and 30 take turns, and begin anew in August.
    if month != 2 {
        return 30 + (month + month / 8) % 2;
    }
    if (year % 4 == 0) & (year != 2100) {
        29
    } else {
        28
    }
}
