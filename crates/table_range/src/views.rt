//! The knowledge of a pass about the range, for contracts alone.

/// The account of a pass with the groups' words, which count the full slots of the allocation
/// range, as contracts see it. No value of it is made.
pub enum Change {
    /// The groups' words count what the pass did.
    Outside,
    /// The word of this group counts one full slot too few. The pass has still to load the question
    /// word, and to clear it, before it empties that slot.
    Lowered(u32),
    /// The word of this group counts one full slot too few. The pass is about to empty that slot,
    /// or has still to add it.
    Inside(u32),
}

/// The survey of the groups by a pass that asks whether the allocation range is full, as contracts
/// see it. No value of it is made.
pub enum Survey {
    /// The question word doesn't have the pass's bit.
    None,
    /// The pass set its bit, and visited this many groups since. While the bit is there, they are
    /// full.
    Covered(u32),
}
