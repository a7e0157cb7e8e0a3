//! The numbers that the functions return, as `include/yachtjudge.h` has them.
/// The script may print the text.
pub const LEGAL: u32 = 0;

/// The script doesn't print the text.
pub const NOT_LEGAL: u32 = 1;

/// Neither was shown within the limits.
pub const UNDECIDED: u32 = 2;

/// The bytes aren't a script.
pub const BAD_SCRIPT: u32 = 3;

/// An allocation failed.
pub const NO_MEMORY: u32 = 4;

/// An event can't follow those before it in a log.
pub const FAULTY: u32 = 5;

/// An event can't be read.
pub const MALFORMED: u32 = 6;

/// The table has more than `MOST_LOG_SLOTS` slots.
pub const TOO_MANY_SLOTS: u32 = 7;

/// A catalogue refuses a file.
pub const BAD_FILE: u32 = 8;

/// All texts are listed.
pub const ALL: u32 = 0;

/// All listed texts are right, and there may be more.
pub const SOME: u32 = 1;

/// There is no room for the texts.
pub const NO_ROOM: u32 = 2;

/// The largest number of slots of a log's table.
pub const MOST_LOG_SLOTS: u32 = 1048576;

/// The kind of an event: a chain of requests is called.
pub const EVENT_CALL: u32 = 1;

/// The answer of a member of a chain was seen.
pub const EVENT_DONE: u32 = 2;

/// A look of a slot is called.
pub const EVENT_LOOK: u32 = 3;

/// The answer of a look was seen: a file.
pub const EVENT_FOUND: u32 = 4;

/// The answer of a look was seen: no file.
pub const EVENT_EMPTY: u32 = 5;

/// The hold of the file that a look found begins to end.
pub const EVENT_FREE: u32 = 6;

/// A file was closed, at some time before.
pub const EVENT_CLOSED: u32 = 7;

/// Each call was answered, and each removed file was closed.
pub const EVENT_SETTLED: u32 = 8;

/// The kind of a request: an open of a file of the catalogue at a slot.
pub const REQUEST_OPEN: u32 = 1;

/// An open of a file of the catalogue at any empty slot.
pub const REQUEST_OPEN_ANY: u32 = 2;

/// An open of a name that the catalogue doesn't have.
pub const REQUEST_OPEN_MISSING: u32 = 3;

/// A read.
pub const REQUEST_READ: u32 = 4;

/// A close.
pub const REQUEST_CLOSE: u32 = 5;

/// An update.
pub const REQUEST_UPDATE: u32 = 6;

/// The fault of an event: its call has another number than the next one.
pub const FAULT_WRONG_NUMBER: u32 = 1;

/// The requests of a call have a fault, or are not one chain.
pub const FAULT_NOT_ONE_CHAIN: u32 = 2;

/// An answer without its call.
pub const FAULT_NOT_CALLED: u32 = 3;

/// An answer before that of an earlier member.
pub const FAULT_OUT_OF_TURN: u32 = 4;

/// A further answer of a call that is answered.
pub const FAULT_ANSWERED_TWICE: u32 = 5;

/// The end of a hold that isn't there.
pub const FAULT_NOT_HELD: u32 = 6;

/// `EVENT_SETTLED` while a call isn't answered.
pub const FAULT_STILL_OPEN: u32 = 7;

/// The flaw of an event: its kind is unknown.
pub const FLAW_EVENT: u32 = 1;

/// The kind of a request is unknown.
pub const FLAW_REQUEST: u32 = 2;

/// A flag of a request is unknown.
pub const FLAW_FLAGS: u32 = 3;

/// The catalogue doesn't have the file.
pub const FLAW_FILE: u32 = 4;

/// A range ends after the array that it is of.
pub const FLAW_RANGE: u32 = 5;

/// The kind of a point in time: the event at a position.
pub const POINT_EVENT: u32 = 1;

/// An access of the member, or of the look, that the event at a position answers.
pub const POINT_ACCESS: u32 = 2;

/// The access that installs a file, or the end of the flight.
pub const POINT_PUT: u32 = 3;

/// The last time at which a file is at a slot.
pub const POINT_GONE: u32 = 4;

/// The rule of a step: an event comes before a later event.
pub const RULE_EVENTS: u32 = 1;

/// A call comes before its accesses.
pub const RULE_BEGINS: u32 = 2;

/// An access comes before the answer of its member.
pub const RULE_ENDS: u32 = 3;

/// A call comes before it installs a file.
pub const RULE_CALLS: u32 = 4;

/// An answered request has installed its file.
pub const RULE_INSTALLS: u32 = 5;

/// A file that an answered request installed was then at its slot.
pub const RULE_PLACES: u32 = 6;

/// A file was installed before a look found it.
pub const RULE_FOLLOWS: u32 = 7;

/// A look found a file before it left its slot.
pub const RULE_FINDS: u32 = 8;

/// A file left its slot before it was closed.
pub const RULE_CLOSES: u32 = 9;

/// A file that was installed and not closed when all was settled was still at its slot.
pub const RULE_SETTLES: u32 = 10;

/// An access that leaves a slot without a file comes after the file left it.
pub const RULE_EMPTIES: u32 = 11;

/// The same access comes before the file was installed if the file is at the slot later.
pub const RULE_PRECEDES: u32 = 12;

/// A file left its slot when another one was installed there.
pub const RULE_DISPLACES: u32 = 13;

/// A file at a slot after another one was installed there was installed after it.
pub const RULE_OUTLIVES: u32 = 14;

/// Two orders make one.
pub const RULE_THEN: u32 = 15;

/// A contradiction: a look found a file that was closed before.
pub const RULE_FINDS_CLOSED: u32 = 16;

/// A contradiction: a file was closed twice.
pub const RULE_CLOSES_TWICE: u32 = 17;

/// A contradiction: a file was closed while a look held it.
pub const RULE_CLOSES_HELD: u32 = 18;

/// A contradiction: a request can't have its answer.
pub const RULE_CANT_ANSWER: u32 = 19;

/// An access finds a file at a slot, and each other file isn't there.
pub const RULE_HOLDS: u32 = 20;

/// Accesses of different calls aren't at the same time.
pub const RULE_DIFFERS: u32 = 21;

/// No access takes a file from its slot before an event.
pub const RULE_STAYS: u32 = 22;

/// The only access that may take a file from its slot comes when the file leaves it, or before.
pub const RULE_TAKES: u32 = 23;

/// A file leaves its slot when the only access that may take it comes, or before.
pub const RULE_TAKEN_BY: u32 = 24;

/// A file that was installed before an event was then at the only slot at which it may be.
pub const RULE_LANDS: u32 = 25;

/// A file that was installed before an event was never at another slot than those where it may be.
pub const RULE_MISSES: u32 = 26;

/// A file was installed before it was closed.
pub const RULE_EXISTED: u32 = 27;

/// The file of a member that failed is never installed.
pub const RULE_FAILS: u32 = 28;

/// A contradiction: no call before an event may install a file that was installed before it.
pub const RULE_UNKNOWN: u32 = 29;

/// A contradiction: a member is canceled, or isn't, against the answer of the member before it.
pub const RULE_CUT: u32 = 30;

/// An order is supposed, until it is refuted.
pub const RULE_SUPPOSE: u32 = 31;

/// The order that is supposed leads to a contradiction: the opposite one is so.
pub const RULE_OTHERWISE: u32 = 32;
