// Numbers as saved records and histories hold them: groups of seven bits, lowest first, the top bit set on
// every byte but the last, in their shortest form and in at most five bytes. (Elsewhere: LEB128, and zigzag
// for the mapping of signed numbers.) Every public function is total: any bytes, any place and any buffer may
// be handed in.
#![tactic(auto)]

mod decode;
mod encode;
mod form;
mod zigzag;

pub use decode::{Number, read};
pub use encode::{size, write, write_all};
pub use zigzag::{map, unmap};
