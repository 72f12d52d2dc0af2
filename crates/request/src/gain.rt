ghost use Rattle.std.specs.Prelude.{◌≡◌, true, ◌≤◌, pos, ◌+ℤ◌};
ghost use Rattle.state.specs.Units.{frequency_units};
ghost use Rattle.state.specs.State.{within, greatest_frequency, greatest_offset, greatest_constant, longest_interval};
ghost use Rattle.request.specs.Request.{gain_divisor, gain, clamp};
ghost use Rattle.request.specs.Inner.{greatest_gain};

use crate::units::AskedOffset;
use state::{Frequency, MAX_FREQUENCY, MIN_FREQUENCY};

fn gain_divisor(constant: u8) -> i32
    requires { constant ≤ greatest_constant }
    ensures { result ≡ pos (gain_divisor constant) }
{
    match constant {
        0 => 1,
        1 => 4,
        2 => 16,
        3 => 64,
        _ => 256,
    }
}

// What an offset adds to the frequency: RFC 1589 divides by the time constant's power.
pub(crate) fn gain_of(o: AskedOffset, n: u32, constant: u8) -> Frequency
    requires o_value { within greatest_offset o.0 ≡ true }
    requires n_le_longest_interval { n ≤ longest_interval }
    requires constant_le_greatest_constant { constant ≤ greatest_constant }
    ensures { result ≡ frequency_units (gain o.0 n constant) }
{
    let d = gain_divisor(constant);
    Frequency(o.0 as i32 * (n as i32) / d)
}

// A frequency and a gain, kept in the frequency's range.
pub(crate) fn clamped_sum(f: Frequency, g: Frequency) -> Frequency
    requires f_value { within greatest_frequency f.0 ≡ true }
    requires g_value { within greatest_gain g.0 ≡ true }
    ensures { result ≡ frequency_units (clamp (f.0 +ℤ g.0)) }
{
    Frequency((f.0 + g.0).clamp(MIN_FREQUENCY, MAX_FREQUENCY))
}
