// Saved records: a clock written into a lent buffer, and read back from any bytes. Every public function is
// total: a clock or bytes that are not sound get their refusal number; a refused write leaves the buffer, and
// a refused reading gives the fresh clock of kind 0.
#![tactic(auto)]

mod field;
mod groups;
mod layout;
mod restore;
mod save;

pub use restore::{Restored, read};
pub use save::write;
