ghost use Rattle.std.specs.Prelude.{◌≡◌};
ghost use Rattle.state.specs.Limits.{limits, scales, status_codes};

// What the units are worth. The phase and offset units of a microsecond:
pub const PHASE_PER_MICRO: i32 = 268435456;

pub const OFFSET_PER_MICRO: i32 = 16384;

// The frequency units of 1 ppm. (In `timex.freq` of today's kernels 1 ppm is 65,536.)
pub const FREQUENCY_PER_PPM: i32 = 16777216;

pub const MICROS_PER_SECOND: u32 = 1000000;

pub const SECONDS_PER_DAY: u32 = 86400;

// The last second that the clock can tell, and the last microsecond of a second.
pub const LAST_SECOND: u32 = 4294967295;

pub const LAST_MICRO: u32 = MICROS_PER_SECOND - 1;

// The phase lies strictly between these ends, a microsecond either way (phase units).
pub const PHASE_LOWER_END: i32 = -PHASE_PER_MICRO;

pub const PHASE_UPPER_END: i32 = PHASE_PER_MICRO;

// The most that a request may ask the clock to move, either way (us).
pub const MAX_OFFSET_MICROS: i32 = 127999;

// The most and the least that can be left of an offset (offset units).
pub const MAX_OFFSET: i32 = MAX_OFFSET_MICROS * OFFSET_PER_MICRO;

pub const MIN_OFFSET: i32 = -MAX_OFFSET;

// The greatest and the least frequency: 100 ppm either way (frequency units).
pub const MAX_FREQUENCY: i32 = 100 * FREQUENCY_PER_PPM;

pub const MIN_FREQUENCY: i32 = -MAX_FREQUENCY;

pub const MAX_CONSTANT: u8 = 4;

// The longest interval between two offsets that counts (rollovers): README.kern's MAXSEC.
pub const MAX_INTERVAL: u32 = 1024;

// The limit of both errors (us).
pub const MAX_ERROR: u32 = 16000000;

// The status codes, by their names in RFC 1589. Numbers and no enum: C and records hand over any byte, and
// document 01 has a rollover match on the number. (In today's sys/timex.h TIME_WAIT is 4 and TIME_BAD 5.)
pub const TIME_OK: u8 = 0;

pub const TIME_INS: u8 = 1;

pub const TIME_DEL: u8 = 2;

pub const TIME_OOP: u8 = 3;

pub const TIME_BAD: u8 = 4;

// The constants above as values. Each function promises what it answers, and that the constants of these
// names have the same values.

#[derive(Clone, Copy)]
pub struct Scales {
    pub phase: i32,
    pub offset: i32,
    pub frequency: i32,
    pub second: u32,
    pub day: u32,
}

// What the units are worth: phase units and offset units in a microsecond, frequency units in 1 ppm,
// microseconds in a second, seconds in a day.
pub fn unit_scales() -> Scales
    ensures value { result ≡ scales }
    ensures phase_per_micro_value { PHASE_PER_MICRO ≡ scales.phase }
    ensures offset_per_micro_value { OFFSET_PER_MICRO ≡ scales.offset }
    ensures frequency_per_ppm_value { FREQUENCY_PER_PPM ≡ scales.frequency }
    ensures micros_per_second_value { MICROS_PER_SECOND ≡ scales.second }
    ensures seconds_per_day_value { SECONDS_PER_DAY ≡ scales.day }
{
    Scales {
        phase: PHASE_PER_MICRO,
        offset: OFFSET_PER_MICRO,
        frequency: FREQUENCY_PER_PPM,
        second: MICROS_PER_SECOND,
        day: SECONDS_PER_DAY,
    }
}

// The two ends of a signed range.
#[derive(Clone, Copy)]
pub struct Ends {
    pub lower: i32,
    pub upper: i32,
}

#[derive(Clone, Copy)]
pub struct Limits {
    pub seconds: u32,
    pub micros: u32,
    pub phase: Ends,
    pub asked: i32,
    pub offset: Ends,
    pub frequency: Ends,
    pub constant: u8,
    pub interval: u32,
    pub error: u32,
}

// The ends of the state's ranges, and the greatest offset of a request. All are values that are allowed, but
// for those of the phase.
pub fn state_limits() -> Limits
    ensures value { result ≡ limits }
    ensures last_second_value { LAST_SECOND ≡ limits.seconds }
    ensures last_micro_value { LAST_MICRO ≡ limits.micros }
    ensures phase_lower_end_value { PHASE_LOWER_END ≡ limits.phase.lower }
    ensures phase_upper_end_value { PHASE_UPPER_END ≡ limits.phase.upper }
    ensures max_offset_micros_value { MAX_OFFSET_MICROS ≡ limits.asked }
    ensures min_offset_value { MIN_OFFSET ≡ limits.offset.lower }
    ensures max_offset_value { MAX_OFFSET ≡ limits.offset.upper }
    ensures min_frequency_value { MIN_FREQUENCY ≡ limits.frequency.lower }
    ensures max_frequency_value { MAX_FREQUENCY ≡ limits.frequency.upper }
    ensures max_constant_value { MAX_CONSTANT ≡ limits.constant }
    ensures max_interval_value { MAX_INTERVAL ≡ limits.interval }
    ensures max_error_value { MAX_ERROR ≡ limits.error }
{
    Limits {
        seconds: LAST_SECOND,
        micros: LAST_MICRO,
        phase: Ends {
            lower: PHASE_LOWER_END,
            upper: PHASE_UPPER_END,
        },
        asked: MAX_OFFSET_MICROS,
        offset: Ends {
            lower: MIN_OFFSET,
            upper: MAX_OFFSET,
        },
        frequency: Ends {
            lower: MIN_FREQUENCY,
            upper: MAX_FREQUENCY,
        },
        constant: MAX_CONSTANT,
        interval: MAX_INTERVAL,
        error: MAX_ERROR,
    }
}

#[derive(Clone, Copy)]
pub struct StatusCodes {
    pub ok: u8,
    pub ins: u8,
    pub del: u8,
    pub oop: u8,
    pub bad: u8,
}

pub fn status_codes() -> StatusCodes
    ensures value { result ≡ status_codes }
    ensures time_ok_value { TIME_OK ≡ status_codes.ok }
    ensures time_ins_value { TIME_INS ≡ status_codes.ins }
    ensures time_del_value { TIME_DEL ≡ status_codes.del }
    ensures time_oop_value { TIME_OOP ≡ status_codes.oop }
    ensures time_bad_value { TIME_BAD ≡ status_codes.bad }
{
    StatusCodes {
        ok: TIME_OK,
        ins: TIME_INS,
        del: TIME_DEL,
        oop: TIME_OOP,
        bad: TIME_BAD,
    }
}
