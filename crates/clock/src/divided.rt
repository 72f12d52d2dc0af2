ghost use Rattle.std.specs.Prelude.{◌≡◌};
ghost use Rattle.state.specs.Device.{device_of};
ghost use Rattle.clock.specs.Rollover.{division};

use crate::sound::Sound;
use state::{PhaseParts, PhaseUnits};

// A number of parts of a phase unit, as the whole units in it and the parts that they leave, with its sign.
#[derive(Clone, Copy)]
pub(crate) struct Divided {
    pub(crate) quotient: PhaseUnits,
    pub(crate) remainder: PhaseParts,
}

impl Sound {
    // A frequency unit is a part of a phase unit a tick: so frequencies are divided too.
    pub(crate) fn divide(self, parts: i32) -> Divided
        ensures { result ≡ division (device_of self.clock.kind) parts }
    {
        let divisor = self.divisor();
        Divided {
            quotient: PhaseUnits(parts / divisor),
            remainder: PhaseParts(parts % divisor),
        }
    }
}
