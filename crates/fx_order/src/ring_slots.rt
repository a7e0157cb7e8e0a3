//! The slots and counts of a ring.
use crate::slots::Slots;

/// The slots of a ring between two calls, and its counts.
#[derive(Debug, Drop)]
pub struct RingSlots {
    /// The files at the slots of its table, and its allocation range. Without a table there are no
    /// slots.
    pub slots: Slots,
    /// The number of accepted submissions.
    pub submissions: u32,
    /// The number of accepted registrations and updates.
    pub registrations: u32,
}
