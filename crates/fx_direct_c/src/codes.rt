//! The numbers that the functions return, as `include/yachtdirect.h` has them. A number that
//! `include/yachtbanyan.h` has too means the same there.
/// The call is done.
pub const DONE: i32 = 0;

/// The call is done, and nobody uses the file any more: the close of the slot is to be submitted.
pub const CLOSE: i32 = 1;

/// No slot is free.
pub const FULL: i32 = -6;

/// An argument is out of range.
pub const BAD_ARGUMENT: i32 = -8;

/// An allocation failed.
pub const NO_MEMORY: i32 = -9;

/// No life is under way under the key, or at the slot.
pub const STALE: i32 = -10;

/// The life is opening, so the call is refused.
pub const IS_OPENING: i32 = -11;

/// The life is live, so the call is refused.
pub const IS_LIVE: i32 = -12;

/// The life is ending, so the call is refused.
pub const IS_ENDING: i32 = -13;

/// The life is closing, so the call is refused.
pub const IS_CLOSING: i32 = -14;

/// 2^32 - 1 requests are in flight under the key.
pub const TOO_MANY_REQUESTS: i32 = -15;

/// The file has 2^32 - 1 users that are not requests.
pub const TOO_MANY_USERS: i32 = -16;

/// The life is chained, so the call is refused.
pub const IS_CHAINED: i32 = -17;

/// The machine was stopped, so no life begins.
pub const STOPPED: i32 = -18;

/// A life at the slot has a file there, so no file is adopted.
pub const NOT_FREE: i32 = -19;

/// The phase of a life: its open is in flight.
pub const OPENING: i32 = 1;

/// The phase of a life: the slot has its file.
pub const LIVE: i32 = 2;

/// The phase of a life: the slot has its file, which gets no new requests and users.
pub const ENDING: i32 = 3;

/// The phase of a life: its close is in flight.
pub const CLOSING: i32 = 4;

/// The phase of a life: a chain that opens its file is in flight.
pub const CHAINED: i32 = 5;

/// The member of a chain that is its open.
pub const OPEN_OF_CHAIN: u32 = 0;

/// A member of a chain that is a request.
pub const REQUEST_OF_CHAIN: u32 = 1;

/// The member of a chain that is its close.
pub const CLOSE_OF_CHAIN: u32 = 2;
