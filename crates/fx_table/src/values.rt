//! The values that the calls of a shared table return.
use fx_base::OpenFile;
use fx_plain::File;

/// The hold of a file that a pass looked up and has not released. It must be consumed: the compiler
/// rejects a program that drops one.
///
/// The fields may be read. A caller that takes a hold apart must still release it: the pass isn't
/// idle (`is_idle`) until its `release` gets the same value again, and no table is closed while a
/// pass isn't idle. A hold made elsewhere is accepted only if it is that same value.
pub struct Hold {
    /// The number of the file in its table, or in a table that lasts the number of its node there.
    pub node: u32,
    /// The catalogue entry of the file, from 0.
    pub entry: u8,
}

/// The removal of a file that a pass took from its slot and has not retired. It must be consumed:
/// the compiler rejects a program that drops one.
///
/// The fields may be read. A caller that takes one apart must still retire the file: the pass isn't
/// idle (`is_idle`) until its `retire` gets the same value again, and no table is closed while a
/// pass isn't idle. A value made elsewhere is accepted only if it is that same value.
pub struct Retired {
    /// The number of the file in its table, or in a table that lasts the number of its node there.
    pub node: u32,
    /// The catalogue entry of the file, from 0.
    pub entry: u8,
    /// The number of look-ups of the file, in a table that counts them at the slot; otherwise 0.
    pub takes: u32,
}

/// The result of a look-up of a table that lasts. It must be consumed: the compiler rejects a
/// program that drops one.
pub struct LookUp {
    /// The hold of the file at the slot, or the reason why there is none.
    pub found: Result<Hold, LookFault>,
    /// A removed file that this look-up was the last to use, to be closed.
    pub freed: Option<OpenFile>,
}

/// The reason why a look-up returned no file (io_uring_enter(2), "IOSQE_FIXED_FILE").
#[derive(Clone, Copy, Debug, PartialEq, Eq)]
pub enum LookFault {
    /// The pass has no look-ups left (EAGAIN). A table that lasts never returns it.
    Spent,
    /// The slot is empty (EBADF).
    Empty,
}

/// The error that a slot is empty (EBADF; io_uring_prep_close(3), `io_uring_prep_close_direct`).
#[derive(Clone, Copy, Debug, PartialEq, Eq)]
pub struct Empty;

/// The activity of a pass, as contracts see it. No code creates a value of it.
pub enum Doing {
    /// Nothing.
    Idle,
    /// The pass looked the file up, got this hold and hasn't released it.
    Holding(File, Hold),
    /// The pass removed the file, got this value and hasn't retired it.
    Retiring(File, Retired),
}

/// The activity of a pass of a table whose holds and removals name files by their numbers, as
/// contracts of such tables see it. No code creates a value of it.
pub enum Task {
    /// Nothing.
    Idle,
    /// The pass looked the file up and hasn't released it.
    Holding(File),
    /// The pass removed the file and hasn't retired it, with the takes that its table returned.
    Retiring(File, u32),
}
