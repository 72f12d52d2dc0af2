ghost use Rattle.std.specs.Prelude.{◌≡◌};
ghost use Rattle.request.specs.Request.{mode_bits, shortest_interval, request_of};

use crate::effects::Granted;
use crate::units::{AskedFrequency, AskedOffset};
use state::{AskedMicros, Clock, Outcome};

// The bits of a request's mode, one for each field that it can select, by their names in RFC 1589. They are
// numbers and no enum: a mode holds any set of them, and C hands it over as a number.
pub const ADJ_OFFSET: u64 = 1;

pub const ADJ_FREQUENCY: u64 = 2;

pub const ADJ_MAXERROR: u64 = 4;

pub const ADJ_ESTERROR: u64 = 8;

pub const ADJ_STATUS: u64 = 16;

pub const ADJ_TIMECONST: u64 = 32;

// The same bits, as one value.
#[derive(Clone, Copy, Debug, PartialEq, Eq)]
pub struct ModeBits {
    pub offset: u64,
    pub frequency: u64,
    pub maxerror: u64,
    pub esterror: u64,
    pub status: u64,
    pub constant: u64,
}

// Which bit selects which field; the constants of these names have the same values.
pub fn mode_bits() -> ModeBits
    ensures value { result ≡ mode_bits }
    ensures adj_offset_value { ADJ_OFFSET ≡ mode_bits.offset }
    ensures adj_frequency_value { ADJ_FREQUENCY ≡ mode_bits.frequency }
    ensures adj_maxerror_value { ADJ_MAXERROR ≡ mode_bits.maxerror }
    ensures adj_esterror_value { ADJ_ESTERROR ≡ mode_bits.esterror }
    ensures adj_status_value { ADJ_STATUS ≡ mode_bits.status }
    ensures adj_timeconst_value { ADJ_TIMECONST ≡ mode_bits.constant }
{
    ModeBits {
        offset: ADJ_OFFSET,
        frequency: ADJ_FREQUENCY,
        maxerror: ADJ_MAXERROR,
        esterror: ADJ_ESTERROR,
        status: ADJ_STATUS,
        constant: ADJ_TIMECONST,
    }
}

// The fewest rollovers from one accepted offset to the next: README.kern's MINSEC.
pub const MIN_INTERVAL: u32 = 64;

// The mode says which fields are selected; the others are not looked at.
#[repr(C)]
#[derive(Clone, Copy, Debug, PartialEq, Eq)]
pub struct Request {
    pub mode: u64,
    pub offset: AskedOffset,
    pub frequency: AskedFrequency,
    pub maxerror: AskedMicros,
    pub esterror: AskedMicros,
    pub status: u64,
    pub constant: u64,
}

// The clock with a request carried out, or refused whole: ntp_adjtime() of RFC 1589.
pub fn adjust(c: Clock, r: Request) -> Outcome
    ensures value { result ≡ request_of c r }
    ensures min_interval_value { MIN_INTERVAL ≡ shortest_interval }
{
    match Granted::new(c, r) {
        Ok(granted) => Outcome::accepted(granted.requested()),
        Err(refusal) => Outcome::refused(c, refusal),
    }
}
