// The clock for programs in C: c/heukelvos.h declares these functions and says what each owes. `rt lib` here
// writes the library. Those on a lent clock end in `_in_place`; the others take and hand back the clock by
// value. A refusal crosses to C as its number, and 0 where there is none.
#![tactic(auto)]

mod lent;
mod value;

pub use lent::{Counted, heukelvos_catch_up_in_place, heukelvos_tick_in_place};
pub use value::{
    heukelvos_adjust, heukelvos_catch_up, heukelvos_fresh, heukelvos_in_range, heukelvos_label,
    heukelvos_read, heukelvos_set, heukelvos_tick,
};
