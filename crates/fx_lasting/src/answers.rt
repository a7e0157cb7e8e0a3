//! The results of the exchanges that change a slot if its file is on a node, of the call that fills
//! an empty slot, and of the search for one.
use fx_base::OpenFile;

/// The reason why a slot was left as it was, by exchanges that empty or replace it if its file is
/// on a node.
#[derive(Clone, Copy)]
pub enum Miss {
    /// The slot had no file.
    Empty,
    /// The file at the slot was on another node.
    Stale,
    /// The file at the slot was on the node, but the slot's word changed during the call.
    Again,
}

/// The result of a call that installs a file at a slot if it is empty. It must be consumed: the
/// compiler rejects a program that drops one.
pub enum PutEmpty {
    /// The slot has the file.
    Installed,
    /// The slot had a file. The new one comes back.
    Stale(OpenFile),
    /// The slot was empty, but another pass changed its word during the call. The file comes back.
    Again(OpenFile),
}

/// The result of a search for an empty slot of the allocation range.
#[derive(Clone, Copy, Debug, PartialEq, Eq)]
pub enum FoundSlot {
    /// This slot was empty at a moment of the call.
    At(u32),
    /// Every slot of the range had a file at one moment of the call.
    Full,
    /// Neither was found: another pass emptied a slot of the range during the call, or was in the
    /// middle of a call that changes the range.
    Again,
}
