// A rig: up to eight recorders on one host, their clocks in one table.
#![tactic(auto)]

mod rig;

pub use rig::{Answer, MAX_CLOCKS, Parted, bare_answer, event_on, most_clocks, table_answer};
