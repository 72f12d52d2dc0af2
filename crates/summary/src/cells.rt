// The cells of a summary, one for each quarter-hour of the UTC day.
ghost use Rattle.std.specs.Prelude.{◌≡◌, ◌<◌, ◌+◌, min, max};
ghost use Rattle.summary.specs.Summary.{quarters, quarter_of, empty_summary, greatest_count, with_offset};

use clock::SECONDS_PER_DAY;

// The quarter-hours of a day.
pub const QUARTERS: usize = 96;

// The seconds of a quarter-hour.
const QUARTER: u32 = 900;

// For each quarter-hour how many offsets were accepted, up to 65,535, and the largest size among them (us), 0
// where there are none. Two arrays, as document 01 names them: "summary arrays [0; 96] for counts and for
// largest offsets".
#[derive(Clone, Copy, Debug, PartialEq, Eq)]
pub struct Summary {
    pub counts: [u16; QUARTERS],
    pub largest: [u32; QUARTERS],
}

// A summary of no offsets.
pub fn empty() -> Summary
    ensures value { result ≡ empty_summary }
    ensures value_2 { QUARTERS ≡ quarters }
{
    Summary {
        counts: [0; QUARTERS],
        largest: [0; QUARTERS],
    }
}

fn quarter_of(seconds: u32) -> usize
    ensures { (result ≡ quarter_of seconds) × (result < quarters) }
{
    (seconds % SECONDS_PER_DAY / QUARTER) as usize
}

// A count stops at the greatest number that its type has.
fn one_more(n: u16) -> u16
    ensures { result ≡ min greatest_count (n + 1) }
{
    n.saturating_add(1)
}

fn larger(a: u32, b: u32) -> u32
    ensures { result ≡ max a b }
{
    a.max(b)
}

impl Summary {
    // One more offset, of a size (us), at a second.
    pub(crate) fn add(&mut self, seconds: u32, size: u32)
        ensures { self.new ≡ with_offset (quarter_of seconds) size self.old }
    {
        let quarter = quarter_of(seconds);
        self.counts[quarter] = one_more(self.counts[quarter]);
        self.largest[quarter] = larger(self.largest[quarter], size);
    }
}
