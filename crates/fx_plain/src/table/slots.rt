//! Installations and removals.
ghost use Rattle.std.specs.Prelude.{◌≡◌, ◌<◌, ℕ, true, None, IfOk, IfErr, IfSome, IfNone, OnErr};
ghost use Rattle.fx_plain.specs.declared.event.Action.TheVariants.{Put, Clear, Take, Allocate};
ghost use Rattle.fx_plain.specs.declared.event.Action.TheVariants.{Full};
ghost use Rattle.fx_plain.specs.State.{IsInRange, IsSettled};
ghost use Rattle.fx_plain.specs.Step.{Steps, Allows};
ghost use Rattle.fx_plain.specs.Contents.{state_of, leaving, numbers_of, IsTable};
ghost use Rattle.fx_plain.specs.Table.{numbered, LetsLeave};

use crate::node::Node;
use crate::table::PlainTable;
use fx_base::OpenFile;

impl PlainTable {
    /// Installs a file at a slot, under a fresh number ([`PlainTable::is_fresh`]). Returns the
    /// number of the file that it replaced, which is leaving from now on, or `None` if the slot was
    /// empty. A settled table stays settled if the slot was empty (io_uring_prep_openat(3),
    /// `io_uring_prep_openat_direct`).
    pub fn put(&mut self, slot: u32, number: u32, file: OpenFile) -> Option<u32>
        requires slot { slot < (state_of self.old).size }
        requires fresh { (state_of self.old).fresh number ≡ true }
        ensures replaced { let found = (state_of self.old).at slot in
            LetsLeave self.old self.new (Put slot (numbered number file) found) found result }
        ensures size { (state_of self.new).size ≡ (state_of self.old).size }
        ensures settled { (state_of self.old).at slot ≡ None → IsSettled (state_of self.old)
            → IsSettled (state_of self.new) }
        ensures fresh { (other : ℕ) → (other ≡ number → ⊥)
            → (state_of self.old).fresh other ≡ true → (state_of self.new).fresh other ≡ true }
    {
        self.to_renumber.widen(slot);
        self.nodes.set_node(number, Node::At(slot, file));
        let replaced = self.slots[slot as usize];
        self.slots[slot as usize] = Some(number);
        match replaced {
            None => {
                self.full += 1;
                None
            }
            Some(old) => {
                self.nodes.leave(old);
                self.removed += 1;
                Some(old)
            }
        }
    }

    /// Installs a file at an empty slot of the allocation range, under a fresh number
    /// ([`PlainTable::is_fresh`]), and returns the slot. It is the first such slot, which no
    /// contract promises (io_uring_prep_openat(3), "IORING_FILE_INDEX_ALLOC").
    ///
    /// # Errors
    /// Returns the file if every slot of the range has a file (ENFILE). The table then stays as it
    /// was, and the number stays fresh.
    pub fn put_any(&mut self, number: u32, file: OpenFile) -> Result<u32, OpenFile>
        requires { (state_of self.old).fresh number ≡ true }
        ensures ok { IfOk result (λ slot.
            Steps (state_of self.old) (Allocate slot (numbered number file)) (state_of self.new)) }
        ensures full { OnErr result (Allows (state_of self.old) Full) }
        ensures refused { IfErr result (λ back. back ≡ file) }
        ensures err { OnErr result (self.new ≡ self.old) }
        ensures leaving { leaving self.new ≡ leaving self.old }
        ensures numbers { numbers_of self.new ≡ numbers_of self.old }
        ensures sound { IsTable self.new }
    {
        let Some(slot) = self.free_slot() else {
            return Err(file);
        };
        let _none = self.put(slot, number, file);
        Ok(slot)
    }

    // Returns the first empty slot of the allocation range.
    fn free_slot(&self) -> Option<u32>
        ensures found { IfSome result (λ slot.
            (slot < (state_of self.now).size)
            × IsInRange (state_of self.now) slot
            × ((state_of self.now).at slot ≡ None)) }
        ensures full { IfNone result (Allows (state_of self.now) Full) }
        ensures sound { IsTable self.now }
    {
        for slot in self.range_start..self.range_start + self.range_len {
            if self.slots[slot as usize].is_none() {
                return Some(slot);
            }
        }
        None
    }

    /// Empties a slot for an update. Returns the number of the file that was there, which is
    /// leaving from now on, or `None` if the slot was empty (io_uring_register(2),
    /// "IORING_REGISTER_FILES_UPDATE", an entry of -1).
    pub fn clear(&mut self, slot: u32) -> Option<u32>
        requires { slot < (state_of self.old).size }
        ensures { let found = (state_of self.old).at slot in
            LetsLeave self.old self.new (Clear slot found) found result }
    {
        self.take(slot)
    }

    /// Empties a slot for a close. Returns the number of the file that was there, which is leaving
    /// from now on, or `None` if the slot was empty (io_uring_prep_close(3),
    /// `io_uring_prep_close_direct`).
    pub fn take(&mut self, slot: u32) -> Option<u32>
        requires { slot < (state_of self.old).size }
        ensures { let found = (state_of self.old).at slot in
            LetsLeave self.old self.new (Take slot found) found result }
    {
        let number = self.slots[slot as usize]?;
        self.slots[slot as usize] = None;
        self.full -= 1;
        self.nodes.leave(number);
        self.removed += 1;
        Some(number)
    }
}
