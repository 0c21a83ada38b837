//! The limits of instances.

/// The greatest number of parts of an object.
pub const MOST_PARTS: u32 = 1_000_000;

/// The greatest number of bytes of a text.
pub const LONGEST_TEXT: usize = 65_535;
