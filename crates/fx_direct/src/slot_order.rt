//! The slots that may begin a life. Each call takes constant time.
ghost use Rattle.std.specs.Prelude.{◌≡◌, ◌<◌, ◌==◌, if◌then◌else◌, ℕ, not, true, false, IfOk, IfSome, IfNone};
ghost use Rattle.fx_direct.specs.Order.{is_among_vacant, is_ranged};

use fx_base::NoMemory;
use std::alloc::Global;
use std::marker::Model;

/// The slots that the kernel chooses: the ring's allocation range.
#[derive(Clone, Copy, Debug, PartialEq, Eq)]
pub struct SlotRange {
    /// The first slot of the range.
    pub first: u32,
    /// The number of its slots, or 0 if the kernel chooses none.
    pub length: u32,
}

impl SlotRange {
    // Checks whether a slot is in the range.
    #[inline(always)]
    pub(crate) fn has(self, slot: u32) -> bool
        ensures { result ≡ is_ranged self slot }
    {
        self.first <= slot && slot - self.first < self.length
    }
}

// The vacant slots, of which the last one is taken first, the number of all slots, and the range,
// whose slots are never vacant.
#[derive(Drop)]
pub(crate) struct SlotOrder {
    vacant: Vec<u32>,
    size: u32,
    range: SlotRange,
}

impl Model for SlotOrder {
    ghost use Rattle.std.specs.Prelude.{◌≤◌, vec_capacity};
    ghost use Rattle.fx_direct.specs.Order.{Order, IsOrder, ordered};

    ghost Value = { Order };

    ghost view = { λ s. ordered s.vacant.items s.size s.range };

    ghost invariant = { λ s. IsOrder (ordered s.vacant.items s.size s.range)
        × (s.size ≤ vec_capacity s.vacant) };
}

impl SlotOrder {
    // Creates the order of all slots below `n`, which are vacant outside the range.
    pub(crate) fn of_vacant(alloc: Global, n: u32, range: SlotRange) -> Result<SlotOrder, NoMemory>
        ensures same { IfOk result (λ order. order.size ≡ n) }
        ensures range { IfOk result (λ order. order.range ≡ range) }
        ensures all { IfOk result (λ order. (slot : ℕ) → slot < n
            → is_among_vacant order slot ≡ not (is_ranged range slot)) }
    {
        let mut order = SlotOrder {
            vacant: Vec::with_capacity(alloc, n as usize)?,
            size: n,
            range,
        };
        for slot in 0..n {
            order.put(slot);
        }
        Ok(order)
    }

    // Returns the range.
    #[inline(always)]
    pub(crate) fn range(&self) -> SlotRange
        ensures { result ≡ self.now.range }
    {
        self.range
    }

    // Takes a vacant slot, which is then not vacant, or returns `None` if no slot is vacant.
    #[inline(always)]
    pub(crate) fn take(&mut self) -> Option<u32>
        ensures same { self.new.size ≡ self.old.size }
        ensures range { self.new.range ≡ self.old.range }
        ensures found { IfSome result (λ slot. (slot < self.old.size)
            × (is_among_vacant self.old slot ≡ true)
            × ((other : ℕ) → is_among_vacant self.new other ≡
            (if other == slot then false else is_among_vacant self.old other))) }
        ensures none { IfNone result ((self.new ≡ self.old)
            × ((slot : ℕ) → is_among_vacant self.old slot ≡ false)) }
    {
        self.vacant.pop()
    }

    // Adds a slot that isn't vacant to the vacant ones, unless it is in the range.
    #[inline(always)]
    pub(crate) fn put(&mut self, slot: u32)
        requires inside { slot < self.old.size }
        requires out { is_among_vacant self.old slot ≡ false }
        ensures same { self.new.size ≡ self.old.size }
        ensures range { self.new.range ≡ self.old.range }
        ensures after { (other : ℕ) → is_among_vacant self.new other ≡
            (if other == slot then not (is_ranged self.old.range slot)
            else is_among_vacant self.old other) }
    {
        if !self.range.has(slot) {
            self.vacant.push_reserved(slot);
        }
    }
}
