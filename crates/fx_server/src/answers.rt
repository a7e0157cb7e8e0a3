//! The numbers and tags that C gets. A file is named by its tag.
ghost use Rattle.std.specs.Prelude.{◌≡◌};
ghost use Rattle.fx_server.specs.Outcomes.{dropped_or, fault_code, tag_of};

use crate::codes::{AGAIN, DROPPED, EMPTY, NO_SLOT, STALE};
use fx_base::OpenFile;
use fx_lasting::KeyFault;

/// The numbers that C gets beside the answer of a call. Each is 0 if there is no such file.
#[repr(C)]
#[derive(Clone, Copy, Drop)]
pub struct CoreOutcome {
    /// The number of the file that was found or installed.
    pub number: u64,
    /// The tag of the file that was found, or that was removed and nobody uses any more.
    pub tag: u64,
    /// The tag of a removed file that the call's look-up was the last to use.
    pub freed: u64,
    /// The tag of a file that the call held and was the last to use.
    pub released: u64,
}

/// The outcome of a call that did nothing.
pub const NO_OUTCOME: CoreOutcome = CoreOutcome {
    number: 0,
    tag: 0,
    freed: 0,
    released: 0,
};

// Consumes a file if it came out, and writes its tag or 0. Returns `DROPPED`, or this other number.
#[inline(always)]
pub(crate) fn consume(out: Option<OpenFile>, other: i64, tag: &mut u64) -> i64
    ensures tag { tag.new ≡ tag_of out }
    ensures answer { result ≡ dropped_or other out }
{
    *tag = 0;
    let Some(file) = out else {
        return other;
    };
    *tag = file.tag();
    file.discard();
    DROPPED
}

// Returns the number of a call by key that left the slot as it was.
#[inline(always)]
pub(crate) fn fault_code(fault: KeyFault) -> i64
    ensures { result ≡ fault_code fault }
{
    match fault {
        KeyFault::NoSlot => NO_SLOT,
        KeyFault::Empty => EMPTY,
        KeyFault::Stale => STALE,
        KeyFault::Again => AGAIN,
    }
}
