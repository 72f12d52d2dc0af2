// The two kinds of recorder. A clock carries its kind, and no call changes it: the ticks of one are not those
// of the other.
use crate::show::{show_clock, show_count, show_refusal};
use clock::{AskedMicros, Clock, KIND_1024};
use std::io;

// A number that is no kind.
const NO_KIND: u8 = 2;

fn show_kind(rt: &impl Print, what: &str, c: Clock) -> io::Result<()> {
    show_count(rt, what, u64::from(c.kind))
}

// A second of the 1,024 Hz recorder: as many ticks as its constants tell. Both runs begin with the same
// clock, since it is a value.
pub(crate) fn second_of_1024_ticks(rt: &impl Print) -> io::Result<()> {
    let new = clock::fresh(KIND_1024);
    show_refusal(rt, "a fresh clock of kind 1", new.refusal)?;
    let rate = u64::from(clock::device_constants(KIND_1024).device.rate);
    show_count(rt, "  ticks a second", rate)?;
    let one = clock::run_ticks(new.clock, 1);
    show_clock(rt, "  one tick later", one.clock)?;
    let second = clock::run_ticks(new.clock, rate);
    show_clock(rt, "  a second later", second.clock)?;
    let set = clock::set(second.clock, 0, AskedMicros(0));
    show_kind(rt, "  set back, and of kind", set.clock)
}

// There is no third kind: the answer is refused, and its clock is one of kind 0.
pub(crate) fn no_third_kind(rt: &impl Print) -> io::Result<()> {
    let none = clock::fresh(NO_KIND);
    show_refusal(rt, "a fresh clock of kind 2", none.refusal)?;
    show_kind(rt, "  which gives one of kind", none.clock)
}
