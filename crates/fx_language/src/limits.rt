//! The limits of scripts.

/// The greatest number of bytes of a script.
pub const LONGEST_SCRIPT: usize = 4_194_304;

/// The greatest number of bytes of a script's line.
pub const LONGEST_LINE: usize = 10_000;

/// The largest number that a script may have, except for tags.
pub const LARGEST_NUMBER: u32 = 2_147_483_647;

/// The largest tag that a script may have.
pub const LARGEST_TAG: u64 = 18_446_744_073_709_551_615;
