//! The results of the calls by key.
use fx_base::OpenFile;
use fx_table::{Hold, Retired};

/// The reason why a call by key found no file, or changed nothing.
#[derive(Clone, Copy, Debug, PartialEq, Eq)]
pub enum KeyFault {
    /// The table has no such slot.
    NoSlot,
    /// The slot is empty.
    Empty,
    /// The slot has another file than that of the key.
    Stale,
    /// The slot has the file, but the slot's word changed during the call.
    Again,
}

/// The result of a look-up by key. It must be consumed: the compiler rejects a program that drops
/// one.
pub struct KeyLook {
    /// The hold of the file, or the reason why there is none.
    pub found: Result<Hold, KeyFault>,
    /// A removed file that the look-up was the last to use, to be closed.
    pub freed: Option<OpenFile>,
    /// A file that isn't that of the key, if it was removed while the call held it and nobody else
    /// uses it now, to be closed. It is `None` unless `found` is `Stale`.
    pub released: Option<OpenFile>,
}

/// The result of a removal by key. It must be consumed: the compiler rejects a program that drops
/// one.
pub struct KeyTaken {
    /// The removal of the file, which is to be retired, or the reason why nothing changed.
    pub taken: Result<Retired, KeyFault>,
    /// A removed file that the look-up was the last to use, to be closed.
    pub freed: Option<OpenFile>,
    /// A file that the release was the last to use, to be closed. It is `None` if the call changed
    /// the slot.
    pub released: Option<OpenFile>,
}

/// The change that a replacement by key made. It must be consumed: the compiler rejects a program
/// that drops one.
pub enum PutOverKey {
    /// The slot has the new file. The file of the key is to be retired.
    Replaced(Retired),
    /// Nothing was changed. The new file comes back.
    Missed(KeyFault, OpenFile),
}

/// The result of a replacement by key. It must be consumed: the compiler rejects a program that
/// drops one.
pub struct KeyPut {
    /// The change that was made.
    pub put: PutOverKey,
    /// A removed file that the look-up was the last to use, to be closed.
    pub freed: Option<OpenFile>,
    /// A file that the release was the last to use, to be closed. It is `None` if the call changed
    /// the slot.
    pub released: Option<OpenFile>,
}
