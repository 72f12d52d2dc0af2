// Ticks, one by one and many in one call, and requests.
use clock::{CaughtUp, Clock, KIND_256, catch_up, tick};
use request::adjust;
use workload::{Checksum, Values, later};

pub(crate) fn ticks(values: &Values, kind: u8, count: u64) -> Checksum {
    let mut c = values.clock(kind);
    let mut sum = Checksum(0);
    for _ in 0..count {
        let o = tick(c);
        c = o.clock;
        sum = sum.with(u64::from(o.refusal)).with(u64::from(c.micros.0));
    }
    sum.with_clock(c)
}

fn with_caught_up(sum: Checksum, r: CaughtUp) -> Checksum {
    sum.with(u64::from(r.refusal))
        .with(r.count)
        .with(u64::from(r.tick_refusal))
        .with(u64::from(r.clock.micros.0))
}

// Calls of `ceiling` ticks each. Of a second and of many alike, since what is called at two places of a
// program is kept apart from both.
pub(crate) fn catch_ups(values: &Values, kind: u8, ceiling: u64, count: u64) -> Checksum {
    let mut c = values.clock(kind);
    let mut sum = Checksum(0);
    for _ in 0..count {
        let r = catch_up(c, ceiling, false);
        sum = with_caught_up(sum, r);
        c = r.clock;
    }
    sum.with_clock(c)
}

// A clock after requests, and the checksum of what they answered.
pub(crate) fn after_requests(values: &Values, count: u64) -> (Checksum, Clock) {
    let mut c = later(values.clock(KIND_256));
    let mut sum = Checksum(0);
    for i in 0..count {
        let o = adjust(c, values.request(i));
        sum = sum
            .with(u64::from(o.refusal))
            .with(u64::from(o.clock.status));
        c = later(o.clock);
    }
    (sum, c)
}

pub(crate) fn requests(values: &Values, count: u64) -> Checksum {
    let (sum, c) = after_requests(values, count);
    sum.with_clock(c)
}
