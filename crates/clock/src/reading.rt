ghost use Rattle.std.specs.Prelude.{◌≡◌};
ghost use Rattle.clock.specs.Reading.{told_of};

use state::{Clock, Micros, REFUSED_STATE, TIME_BAD, in_range};

// What a clock shows.
#[repr(C)]
#[derive(Clone, Copy, Debug, PartialEq, Eq)]
pub struct Reading {
    pub seconds: u32,
    pub micros: Micros,
    pub status: u8,
    pub maxerror: Micros,
    pub esterror: Micros,
}

// The answer of a reading: refusal 0 with what the clock shows, or refusal 1 with zeros and status 4. A
// struct and no Result: C reads it by value, and document 01 gives a refused reading these values.
#[repr(C)]
#[derive(Clone, Copy, Debug, PartialEq, Eq)]
pub struct Told {
    pub refusal: u8,
    pub reading: Reading,
}

// A reading of a clock, which it does not change.
pub fn read(c: Clock) -> Told
    ensures { result ≡ told_of c }
{
    if !in_range(c) {
        return Told {
            refusal: REFUSED_STATE,
            reading: Reading {
                seconds: 0,
                micros: Micros(0),
                status: TIME_BAD,
                maxerror: Micros(0),
                esterror: Micros(0),
            },
        };
    }
    Told {
        refusal: 0,
        reading: Reading {
            seconds: c.seconds,
            micros: c.micros,
            status: c.status,
            maxerror: c.maxerror,
            esterror: c.esterror,
        },
    }
}
