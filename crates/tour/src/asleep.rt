// A recorder that sleeps makes up for the ticks that it has missed before it stamps the next frame: up to
// 65,536 in one call, 256 s.
use crate::show::{show_clock, show_count, show_refusal};
use clock::{AskedMicros, Clock, LAST_SECOND, MAX_CEILING};
use std::io;

// Eight hours at 256 Hz.
const NIGHT: u64 = 8 * 60 * 60 * 256;

// A clock, and the ticks that the timer has counted and the clock has not made yet.
#[derive(Clone, Copy)]
struct Behind {
    due: u64,
    clock: Clock,
}

// With `stop` the call ends after the tick that rolls the second over, whatever its ceiling: the place for a
// reading each second.
pub(crate) fn to_the_next_second(rt: &impl Print, c: Clock) -> io::Result<()> {
    let made = clock::catch_up(c, MAX_CEILING, true);
    show_count(rt, "to the next second, ticks made", made.count)?;
    show_clock(rt, "  which gives", made.clock)
}

// A night, made up for in 112 calls of 65,536 ticks and one of 32,768. The frequency and the rest of the
// offset are paid in it as if the recorder had been awake: some 28,800 x 50 us and 1,000 us.
pub(crate) fn night_asleep(rt: &impl Print, c: Clock) -> io::Result<()> {
    let evening = Behind {
        due: NIGHT,
        clock: c,
    };
    show_count(rt, "a night asleep, ticks due", evening.due)?;
    let morning = catch_up_all(evening);
    show_count(rt, "  and left in the morning", morning.due)?;
    show_clock(rt, "  which gives", morning.clock)
}

// One call. What is left is counted by what the answer says was made, and not by what was asked for: the
// count is never above the ceiling.
fn catch_up_once(b: Behind) -> Behind {
    let made = clock::catch_up(b.clock, b.due.min(MAX_CEILING), false);
    Behind {
        due: b.due - made.count,
        clock: made.clock,
    }
}

// As many calls as can be needed; docs/GUIDE.md has it too. Where nothing is due any more, a call is asked
// for 0 ticks, which is accepted and does nothing.
fn catch_up_all(b: Behind) -> Behind {
    let mut behind = b;
    for _ in 0..=b.due / MAX_CEILING {
        behind = catch_up_once(behind);
    }
    behind
}

// From five seconds before the last one on. The tick that would end the last second is refused: its number
// stands beside the count, the ticks before it stand, and the call itself is accepted.
pub(crate) fn into_the_last_second(rt: &impl Print, c: Clock) -> io::Result<()> {
    let set = clock::set(c, u64::from(LAST_SECOND) - 5, AskedMicros(0));
    let made = clock::catch_up(set.clock, MAX_CEILING, false);
    show_refusal(rt, "65,536 ticks, at the end of time", made.refusal)?;
    show_count(rt, "  ticks made", made.count)?;
    show_refusal(rt, "  the next tick", made.tick_refusal)?;
    show_clock(rt, "  which gives", made.clock)
}

// A call that is refused makes no tick.
pub(crate) fn too_many_at_once(rt: &impl Print, c: Clock) -> io::Result<()> {
    let made = clock::catch_up(c, MAX_CEILING + 1, false);
    show_refusal(rt, "65,537 ticks in one call", made.refusal)?;
    show_count(rt, "  ticks made", made.count)
}
