//! The slots of the allocation range that a pass emptied last. An allocation begins its scan at the
//! one that it emptied last, or else after the slot that it filled last, so that passes which fill
//! and empty slots of their own don't meet. A pass that has filled none begins at a group of its
//! own.

// The number of slots that are kept.
const KEPT: u32 = 8;

// A place without a slot.
const NO_SLOT: u32 = u32::MAX;

// The slots, in a ring, and the slot after the one that the pass filled last. No contract speaks of
// it: a scan goes over the whole range, wherever it begins.
#[derive(Drop)]
pub(crate) struct Emptied {
    slots: [u32; 8],
    top: u32,
    next: u32,
}

impl Emptied {
    // Creates an empty ring.
    pub(crate) fn new() -> Emptied {
        Emptied {
            slots: [NO_SLOT; 8],
            top: 0,
            next: NO_SLOT,
        }
    }

    // Keeps a slot of the allocation range that was emptied, in place of the oldest one. A slot
    // that is outside the range, or was empty, isn't kept.
    pub(crate) fn keep(&mut self, slot: u32, inside: bool, was_empty: bool) {
        if inside && !was_empty {
            self.top = (self.top % KEPT + 1) % KEPT;
            self.slots[(self.top % KEPT) as usize] = slot;
        }
    }

    // Takes the slot that was emptied last. If none is kept, it returns the slot after the one that
    // was filled last.
    pub(crate) fn take_last(&mut self) -> u32 {
        let at = self.top % KEPT;
        let slot = self.slots[at as usize];
        if slot == NO_SLOT {
            return self.next;
        }
        self.slots[at as usize] = NO_SLOT;
        self.top = (at + KEPT - 1) % KEPT;
        slot
    }

    // Records that an allocation filled the slot.
    pub(crate) fn fill(&mut self, slot: u32) {
        self.next = slot.wrapping_add(1);
    }
}
