// The state of the disciplined clock of README.kern and RFC 1589, and what describes it: the kinds of number,
// the constants of the devices, the fields with their ranges, the fresh clock. The calls on it are in
// `clock`, which passes all of this on.
#![tactic(auto)]

mod device;
mod limits;
mod outcome;
mod refusal;
mod refusals;
mod state;
mod units;

pub use device::{Constants, Device, KIND_256, KIND_1024, device_constants};
pub use limits::{
    Ends, FREQUENCY_PER_PPM, LAST_MICRO, LAST_SECOND, Limits, MAX_CONSTANT, MAX_ERROR,
    MAX_FREQUENCY, MAX_INTERVAL, MAX_OFFSET, MAX_OFFSET_MICROS, MICROS_PER_SECOND, MIN_FREQUENCY,
    MIN_OFFSET, OFFSET_PER_MICRO, PHASE_LOWER_END, PHASE_PER_MICRO, PHASE_UPPER_END,
    SECONDS_PER_DAY, Scales, StatusCodes, TIME_BAD, TIME_DEL, TIME_INS, TIME_OK, TIME_OOP,
    state_limits, status_codes, unit_scales,
};
pub use outcome::Outcome;
pub use refusal::{NoRefusal, Refusal};
pub use refusals::{
    REFUSED_BEYOND, REFUSED_CEILING, REFUSED_CONSTANT, REFUSED_ENDED, REFUSED_ERROR, REFUSED_FIELD,
    REFUSED_FORM, REFUSED_FREQUENCY, REFUSED_LABEL, REFUSED_LAST, REFUSED_MODE, REFUSED_OFFSET,
    REFUSED_PLACE, REFUSED_ROOM, REFUSED_SOON, REFUSED_STATE, REFUSED_STATUS, REFUSED_TABLE,
    REFUSED_TIME, RefusalNumbers, refusal_numbers,
};
pub use state::{Clock, fresh, in_range};
pub use units::{AskedMicros, Frequency, Micros, OffsetUnits, PhaseParts, PhaseUnits};
