// The written form, as the reader and the writers use it.

// A group has seven bits: so many values.
pub(crate) const GROUP: u32 = 128;

// The top bit of a byte, which says that more follows.
pub(crate) const MORE: u32 = 0x80;

// The bytes of the longest number.
pub(crate) const MOST_BYTES: usize = 5;
