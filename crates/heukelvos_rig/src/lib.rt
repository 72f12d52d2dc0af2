// A rig for programs in C: c/heukelvos.h declares the function and says what it owes. `rt lib` here writes
// its library, which is linked beside that of `heukelvos`: in one library with the lent tick the tick would
// have two callers and be inlined into neither.
#![tactic(auto)]

mod rig_event;

pub use rig_event::{CodedEvent, heukelvos_event_at};
