//! The results of one try to install a file at any slot, and of the steps of a replacement by key.
use crate::key_answers::PutOverKey;
use fx_base::OpenFile;

/// The result of one try to install a file at an empty slot of the allocation range. It must be
/// consumed: the compiler rejects a program that drops one.
pub enum TriedPut {
    /// The file is at this slot.
    At(u32),
    /// Every slot of the range had a file at one moment. The file comes back.
    Full(OpenFile),
    /// Neither was found: other passes were changing the range. The file comes back.
    Again(OpenFile),
}

// The hold of a pass that took what the slot of a key names, or announced its node.
pub(crate) enum Taken {
    // The file of the key, on this node.
    Its(u32),
    // Nothing: the slot is empty.
    Nothing,
    // The file of this node, which isn't that of the key.
    Other(u32),
    // Nothing: the slot names this node, which was announced, no more, or isn't hot.
    Moved(u32),
}

// The result of a try to replace the file of a key.
pub(crate) enum Renewal {
    // The result of the call, and a file that its release was the last to use.
    Ends(PutOverKey, Option<OpenFile>),
    // Nothing was changed: the slot has had another file since the pass aimed at it. The new file
    // comes back, with a removed file that the announcement was the last to use.
    Moved(OpenFile, Option<OpenFile>),
}
