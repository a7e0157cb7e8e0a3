//! The numbers that the functions return, as `include/yachtbanyan.h` and `bindings/c/core.h` have
//! them.
/// The call is done. If it installs a file, the slot was empty.
pub const DONE: i64 = 0;

/// The call is done, and it returned the tag of a file that nobody uses any more.
pub const DROPPED: i64 = 1;

/// The call is done, and the file that was at the slot is still used.
pub const IN_USE: i64 = 2;

/// The slot is empty.
pub const EMPTY: i64 = -1;

/// The table has no such slot.
pub const NO_SLOT: i64 = -2;

/// The worker holds a file.
pub const BUSY: i64 = -3;

/// The worker holds no file.
pub const IDLE: i64 = -4;

/// The worker only looks files up.
pub const READER: i64 = -5;

/// At one step every slot had a file.
pub const FULL: i64 = -6;

/// An insertion or a search found neither a slot nor a step at which every slot had a file, since
/// others were emptying or filling slots; or the slot's word changed during the call.
pub const AGAIN: i64 = -7;

/// An argument is out of range.
pub const BAD_ARGUMENT: i64 = -8;

/// An allocation failed.
pub const NO_MEMORY: i64 = -9;

/// The slot has another file than that of the key, or the call fills only an empty slot.
pub const STALE: i64 = -10;
