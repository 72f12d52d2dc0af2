// A summary of accepted offsets by the quarter-hours of the UTC day.
#![tactic(auto)]

mod cells;
mod counting;

pub use cells::{QUARTERS, Summary, empty};
pub use counting::{Summed, step, step_in_place};
