// The bytes of a second's label: digits by hand, eight bytes in one word, which C does not do in fewer
// instructions.
ghost use Rattle.std.specs.Prelude.{◌≡◌, ◌/◌, ◌%◌, ◌<◌, Bool, ◌∷◌, ◌++◌, if◌then◌else◌, nat_eq, slice_set};
ghost use Rattle.state.specs.Units.{seconds_per_day, last_second_of_day};
ghost use Rattle.label.specs.Label.{digit, two, seconds_per_minute, minutes_per_hour, seconds_per_hour, hours_per_day, label_of};
ghost use Rattle.label.specs.Inner.{time_text};

use crate::SIZE;
use crate::units::{MINUTES_PER_HOUR, SECONDS_PER_HOUR, SECONDS_PER_MINUTE};
use state::SECONDS_PER_DAY;

// The marks between pairs of digits, in ASCII.
const HYPHEN: u64 = 0x2D;

const COLON: u64 = 0x3A;

// A minute, an hour and a day in seconds, and an hour in minutes.
const MINUTE: u64 = SECONDS_PER_MINUTE as u64;

const HOUR: u64 = SECONDS_PER_HOUR as u64;

const DAY: u64 = SECONDS_PER_DAY as u64;

const HOUR_MINUTES: u64 = MINUTES_PER_HOUR as u64;

// Eight bytes in one word: a zero in each byte of a digit, a 1 in the bytes of the marks.
const ZEROS: u64 = 0x3030_0030_3000_3030;

const MARKS: u64 = 0x0000_0100_0001_0000;

// The two digits of a number below 100, in ASCII. A number n with the tenth t has the digits t and n - 10 t,
// the first in the lower byte: 256 n - 2559 t.
fn two_digits(n: u64) -> [u8; 2]
    requires { n < 100 }
    ensures { result ≡ two n }
{
    // A tenth, without a division.
    let t = n * 103 / 1024;
    ((0x100 * n + ZEROS % 0x1_0000 - 2559 * t) as u16).to_le_bytes()
}

// Three numbers in two digits each, with a mark between them. All bytes are worked out in one word, 24 bits
// for each number.
fn marked_pairs(a: u64, b: u64, c: u64, mark: u64) -> [u8; 8]
    requires { (a < 100) × (b < 100) × (c < 100) × (mark < 256) }
    ensures { result ≡ two a ++ (mark ∷ two b) ++ (mark ∷ two c) }
{
    let x = a + 0x100_0000 * b + 0x1_0000_0000_0000 * c;
    // Tenths as above: what lies between them, the remainders of the divisions, is left out.
    let p = x * 103 / 1024;
    let t = p % 0x10
        + 0x100_0000 * (p / 0x100_0000 % 0x10)
        + 0x1_0000_0000_0000 * (p / 0x1_0000_0000_0000 % 0x10);
    let w = 0x100 * x + (ZEROS + MARKS * mark) - 2559 * t;
    w.to_le_bytes()
}

// The time of day of a second.
fn time_text(seconds: u32) -> [u8; 8]
    ensures { result ≡ time_text (seconds / seconds_per_hour % hours_per_day) (seconds / seconds_per_minute % minutes_per_hour) (seconds % seconds_per_minute) }
{
    let of_day = (seconds % SECONDS_PER_DAY) as u64;
    let hour = of_day / HOUR;
    let minutes = of_day / MINUTE;
    marked_pairs(
        hour,
        minutes - HOUR_MINUTES * hour,
        of_day - MINUTE * minutes,
        COLON,
    )
}

// Writes the label of a second since 1970.
pub(crate) fn put_label(seconds: u32, out: &mut [u8; SIZE])
    ensures { out.new ≡ label_of seconds Bool.false }
{
    let date = calendar::date_of_second(seconds);
    let year = date.year as u64;
    // A hundredth of a year to 2106, without a division.
    let century = year * 5243 / 524288;
    let of_century = marked_pairs(
        year - 100 * century,
        date.month as u64,
        date.day as u64,
        HYPHEN,
    );
    out[..2].copy_from_slice(&two_digits(century));
    out[2..10].copy_from_slice(&of_century);
    out[10] = b'T';
    out[11..19].copy_from_slice(&time_text(seconds));
    out[19] = b'Z';
}

// Writes 60 over the seconds of a label whose second is a day's last.
pub(crate) fn put_sixty(seconds: u32, out: &mut [u8; SIZE])
    ensures { out.new ≡ (if nat_eq (seconds % seconds_per_day) last_second_of_day then slice_set (slice_set out.old 17 (digit 6)) 18 (digit 0) else out.old) }
{
    // Asked of the next second: asked of this one, it is a test that the compiler makes for every label.
    if (seconds as u64 + 1) % DAY == 0 {
        out[17] = b'6';
        out[18] = b'0';
    }
}
