// What the programs that measure share: what their operations work on, and the checksum of the results.
#![tactic(auto)]

mod checksum;
mod count;
mod rollovers;
mod values;

pub use checksum::Checksum;
pub use count::count_of;
pub use rollovers::later;
pub use values::Values;
