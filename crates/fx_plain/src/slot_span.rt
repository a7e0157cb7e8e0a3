//! The span of slots that were written since the last preparation.
ghost use Rattle.std.specs.Prelude.{◌≡◌, ◌≤◌, ◌<◌, ◌+◌, ◌^◌, ℕ};
ghost use Rattle.fx_plain.specs.OwnNumbers.{IsOutside};

// The slots from `start` up to, but not including, `end`. The span is empty unless `end` is above
// `start`.
#[derive(Drop)]
pub(crate) struct SlotSpan {
    pub(crate) start: u32,
    pub(crate) end: u32,
}

impl SlotSpan {
    // Creates an empty span.
    pub(crate) fn none() -> SlotSpan
        ensures end { result.end ≡ 0 }
    {
        SlotSpan { start: 0, end: 0 }
    }

    // Widens the span to include one more slot.
    pub(crate) fn widen(&mut self, slot: u32)
        requires { slot + 1 < 2 ^ 32 }
        ensures inside { (size : ℕ) → self.old.end ≤ size → slot < size → self.new.end ≤ size }
        ensures outside { (other : ℕ) → IsOutside self.new other
            → (other ≡ slot → ⊥) × IsOutside self.old other }
    {
        if self.end <= self.start {
            self.start = slot;
            self.end = slot + 1;
        } else {
            self.start = self.start.min(slot);
            self.end = self.end.max(slot + 1);
        }
    }
}
