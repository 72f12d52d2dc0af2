// The ends of what a request may ask for, at the width that requests have. The mode is all six bits at most.
use crate::request::{
    ADJ_ESTERROR, ADJ_FREQUENCY, ADJ_MAXERROR, ADJ_OFFSET, ADJ_STATUS, ADJ_TIMECONST,
};

pub(crate) const MAX_MODE: u64 = ADJ_OFFSET
    + ADJ_FREQUENCY
    + ADJ_MAXERROR
    + ADJ_ESTERROR
    + ADJ_STATUS
    + ADJ_TIMECONST;

// (us)
pub(crate) const MAX_OFFSET: i64 = state::MAX_OFFSET_MICROS as i64;

pub(crate) const MIN_OFFSET: i64 = -MAX_OFFSET;

// The ends of the frequency's range, which a request may not ask for (frequency units).
pub(crate) const FREQUENCY_UPPER_END: i64 = state::MAX_FREQUENCY as i64;

pub(crate) const FREQUENCY_LOWER_END: i64 = state::MIN_FREQUENCY as i64;

// Both errors (us).
pub(crate) const MAX_ERROR: u64 = state::MAX_ERROR as u64;

pub(crate) const MAX_STATUS: u64 = state::TIME_BAD as u64;

pub(crate) const MAX_CONSTANT: u64 = state::MAX_CONSTANT as u64;
