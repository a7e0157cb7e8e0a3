//! The result of a round of the search for an empty slot.

#[derive(Clone, Copy)]
pub(crate) enum Round {
    // The file is at the slot.
    At(u32),
    // Every slot of the range was full.
    AllFull,
    // Some slot may have been empty: another round is needed.
    Again,
}
