// What the programs share: how input is read whole, and the status that a program ends with.
#![tactic(auto)]

mod input;
mod status;

pub use input::read_full;
pub use status::status_of;
