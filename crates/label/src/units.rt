// The units of time that a label counts in.
use state::SECONDS_PER_DAY;

pub(crate) const SECONDS_PER_MINUTE: u32 = 60;

pub(crate) const MINUTES_PER_HOUR: u32 = 60;

pub(crate) const HOURS_PER_DAY: u32 = 24;

pub(crate) const SECONDS_PER_HOUR: u32 = MINUTES_PER_HOUR * SECONDS_PER_MINUTE;

// `clock` has this number too, in private: a public constant would want a promise.
pub(crate) const LAST_SECOND_OF_DAY: u32 = SECONDS_PER_DAY - 1;
