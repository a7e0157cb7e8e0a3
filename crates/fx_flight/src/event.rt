//! Events: what an observer of calls in flight writes down.

use fx_base::Closed as File;
use fx_chain::{Completion, Request};

/// An event of a log. Calls are numbered from 1 in the order of their calls, whether chains or
/// looks. A call is to the log what a submission of one chain is to a ring: member `m` of call `id`
/// has the place with submission `id`, chain 1 and member `m`, and the files that it installs have
/// the marks of that place.
#[derive(Debug, Drop)]
pub enum LogEvent {
    /// A chain of requests is called.
    Call {
        /// The number of the call.
        id: u32,
        /// The requests. Each except the last links with the next one.
        chain: Vec<Request>,
    },
    /// The answer of a member of a chain was seen.
    Done(Completion),
    /// A look of a slot is called: the call of a library's table that holds the file.
    Look {
        /// The number of the call.
        id: u32,
        /// The slot, from 0.
        slot: u32,
    },
    /// The answer of a look was seen.
    Found {
        /// The number of the call.
        id: u32,
        /// The file, or `None` if the slot was empty or isn't one of the table.
        file: Option<File>,
    },
    /// The hold of the file that a look found begins to end.
    Free {
        /// The number of the look.
        id: u32,
    },
    /// A file was closed, at some time before.
    Closed(File),
    /// The observer waited until all calls were answered, and each file that was removed was
    /// closed.
    Settled,
}
