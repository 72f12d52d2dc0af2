// A clock that has been judged once, so that nothing below a call asks again.
ghost use Rattle.std.specs.Prelude.{◌≡◌, true, false, pos, MatchOption};
ghost use Rattle.state.specs.Device.{device_of};
ghost use Rattle.state.specs.State.{in_range};

use state::{Clock, Device, device_constants, in_range};

// A clock whose fields all lie in their ranges.
#[derive(Clone, Copy)]
pub(crate) struct Sound {
    pub(crate) clock: Clock,
    ghost in_range: { in_range clock ≡ true },
}

impl Sound {
    // The clock as it is, or nothing if a field lies outside its range.
    pub(crate) fn of(c: Clock) -> Option<Sound>
        ensures { MatchOption result (in_range c ≡ false) (λ s. s.clock ≡ c) }
    {
        if in_range(c) {
            Some(Sound { clock: c })
        } else {
            None
        }
    }

    // The numbers of its device.
    pub(crate) fn device(self) -> Device
        ensures { result ≡ device_of self.clock.kind }
    {
        device_constants(self.clock.kind).device
    }

    // The parts that make a phase unit.
    pub(crate) fn divisor(self) -> i32
        ensures { result ≡ pos (device_of self.clock.kind).divisor }
    {
        self.device().divisor as i32
    }
}
