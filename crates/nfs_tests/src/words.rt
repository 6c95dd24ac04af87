//! Records as words.

/// A letter as an opaque of one byte, with its padding.
pub(crate) const A: u32 = 0x6100_0000;

/// Another letter, likewise.
pub(crate) const B: u32 = 0x6200_0000;

/// The words 1, 2, 3 and 4.
pub(crate) const SESSION: [u8; 16] = [0, 0, 0, 1, 0, 0, 0, 2, 0, 0, 0, 3, 0, 0, 0, 4];
