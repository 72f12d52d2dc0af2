// Ticks of one second in one step, by products and divisions: specs/Inner.antt.
ghost use Rattle.std.specs.Prelude.{◌≡◌, ◌-◌, ◌*◌, ◌≤◌, ◌<◌};
ghost use Rattle.state.specs.Device.{device_of};
ghost use Rattle.state.specs.Inner.{longest_tick};
ghost use Rattle.state.specs.Units.{phase_units_per_micro};
ghost use Rattle.clock.specs.Inner.{Within, reached_after, jump_of};

use crate::divided::Divided;
use crate::sound::Sound;
use crate::timer::Advance;
use state::{KIND_1024, LAST_MICRO, Micros, PHASE_PER_MICRO, PhaseUnits};

// The longest ticks that go into a microsecond, of some 3,907.13 and 976.78 us (2^-32 ticks, rounded down):
// to divide by a product.
const PER_MICRO_256: u64 = 1099264;

const PER_MICRO_1024: u64 = 4397057;

const PER_MICRO_UNIT: u64 = 4294967296;

// The kind is a number and not an enum: C hands it over, and any byte may come.
fn per_micro(kind: u8) -> u64
    ensures { (result ≤ 4294967296) × (result * longest_tick (device_of kind) ≤ 4294967296 * phase_units_per_micro) }
{
    match kind {
        KIND_1024 => PER_MICRO_1024,
        _ => PER_MICRO_256,
    }
}

// A number of ticks of a clock, none of which but the last can reach the end of the second.
#[derive(Clone, Copy)]
pub(crate) struct Jump {
    pub(crate) from: Sound,
    pub(crate) ticks: u64,
    ghost within: { Within (ticks - 1) from.clock },
}

impl Jump {
    // As many ticks as are sure to be such, but at most `most`. Any such number would do.
    pub(crate) fn of(s: Sound, most: u64) -> Jump
        requires { 0 < most }
        ensures { (result.from ≡ s) × (0 < result.ticks) × (result.ticks ≤ most) }
    {
        let j = (LAST_MICRO - s.clock.micros.0) as u64 * per_micro(s.clock.kind) / PER_MICRO_UNIT
            + 1;
        Jump {
            from: s,
            ticks: j.min(most),
        }
    }

    // All but the last.
    pub(crate) fn less_a_tick(self) -> Jump
        requires { 0 < self.ticks }
        ensures { (result.from ≡ self.from) × (result.ticks ≡ self.ticks - 1) }
    {
        Jump {
            from: self.from,
            ticks: self.ticks - 1,
        }
    }

    // What the leftover has reached: the remainder is the same at each tick.
    fn reached(self) -> Divided
        ensures { result ≡ reached_after self.ticks self.from.clock }
    {
        let c = self.from.clock;
        self.from
            .divide(c.leftover.0 + self.ticks as i32 * c.remainder.0)
    }

    // The microseconds, the phase and the leftover that the ticks lead to.
    pub(crate) fn advance(self) -> Advance
        ensures { result ≡ jump_of self.ticks self.from.clock }
    {
        let c = self.from.clock;
        let j = self.ticks;
        let reached = self.reached();
        let sum = (c.phase.0 + reached.quotient.0) as i64 + j as i64 * c.adjustment.0 as i64;
        let carry = sum / PHASE_PER_MICRO as i64;
        let micros = c.micros.0 as u64 + self.from.device().tick.0 as u64 * j;
        Advance {
            micros: Micros((micros as i64 + carry) as u32),
            phase: PhaseUnits((sum - carry * PHASE_PER_MICRO as i64) as i32),
            leftover: reached.remainder,
        }
    }
}
