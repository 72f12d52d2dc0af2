ghost use Rattle.std.specs.Prelude.{◌≡◌};
ghost use Rattle.state.specs.Device.{kind256, kind1024, device_of, constants_of};

use crate::refusals::REFUSED_STATE;
use crate::units::{Micros, PhaseUnits};

// What sets one kind of recorder apart from another: the rules take these numbers from here.
#[derive(Clone, Copy)]
pub struct Device {
    // rate of the timer (Hz): from one rollover to the next there are that many ticks, or one more or fewer
    pub rate: u32,
    // the whole microseconds of a tick
    pub tick: Micros,
    // phase units a tick for each offset unit of the share: 2^14 / rate
    pub scale: u32,
    // frequency units that make one phase unit a tick, and so the parts of a phase unit: rate / 2^4
    pub divisor: u32,
    // phase units a tick that make up for the microseconds that `rate` ticks lack of a second
    pub base: PhaseUnits,
    // the least and the greatest adjustment that a share and a frequency can lead to
    pub least: PhaseUnits,
    pub most: PhaseUnits,
}

// The 256 Hz recorder.
pub(crate) const RECORDER_256: Device = Device {
    rate: 256,
    tick: Micros(3906),
    scale: 64,
    divisor: 16,
    base: PhaseUnits(67108864),
    least: PhaseUnits(-168819712),
    most: PhaseUnits(303037440),
};

// The 1,024 Hz recorder.
pub(crate) const RECORDER_1024: Device = Device {
    rate: 1024,
    tick: Micros(976),
    scale: 16,
    divisor: 64,
    base: PhaseUnits(150994944),
    least: PhaseUnits(92012800),
    most: PhaseUnits(209977088),
};

// The kinds of device that a clock can carry. Numbers and no enum: a clock from C or from a record may carry
// any byte, and each call says what it answers to one that is no kind.
pub const KIND_256: u8 = 0;

pub const KIND_1024: u8 = 1;

// The constants that the rules take for a kind. Of a number that is no kind, which every call refuses, those
// of kind 0.
pub(crate) fn device_of(kind: u8) -> Device
    ensures { result ≡ device_of kind }
{
    match kind {
        KIND_1024 => RECORDER_1024,
        _ => RECORDER_256,
    }
}

// A kind's constants: refusal 0 and those of the kind, or refusal 1 and those of kind 0. No Result:
// `constants_of`, by which `device_constants` is promised, has the constants of kind 0 beside refusal 1.
#[derive(Clone, Copy)]
pub struct Constants {
    pub refusal: u8,
    pub device: Device,
}

// The constants of a kind of recorder.
pub fn device_constants(kind: u8) -> Constants
    ensures value { result ≡ constants_of kind }
    ensures kind_256_value { KIND_256 ≡ kind256 }
    ensures kind_1024_value { KIND_1024 ≡ kind1024 }
{
    Constants {
        refusal: if KIND_1024 < kind { REFUSED_STATE } else { 0 },
        device: device_of(kind),
    }
}
