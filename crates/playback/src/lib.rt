// A run over a history: its lines, in order, and the clock that it leaves.
#![tactic(auto)]

mod lines;
mod run;

pub use run::{Filling, LONGEST_HISTORY, LONGEST_LINE, Run, RunLimits, fill, run_limits, start};
