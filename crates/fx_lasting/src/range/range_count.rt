//! The steps that take a slot off its group's count, clear the questions of other passes, and add a
//! slot to the count. `table_range` has what the counts mean.
ghost use Rattle.std.specs.Prelude.{◌≡◌, ◌<◌};
ghost use Rattle.fx_lasting.specs.Words.{ℕ, [], true, is_in, group_of, groups_in, uncounted, Outside};
ghost use Rattle.fx_lasting.specs.AtWork.{IsAtWork};
ghost use Rattle.fx_lasting.specs.Laws.{IsInRange};
ghost use Rattle.fx_lasting.specs.Passes.{range_at_start};
ghost use Rattle.fx_lasting.specs.Runs.{Runs};

use crate::kinds::{Breaking, Checking, Lowering, Raising};
use crate::table::LastingTable;
use crate::view::View;
use atomic_table::Seat;
use fx_base::OpenFile;
use table_range::{QUESTION, group_place};

impl LastingTable {
    // Checks whether the slot is in the allocation range.
    #[inline(always)]
    pub(crate) fn is_in_range(&self, slot: u32) -> bool
        ensures { result ≡ is_in (range_at_start self.now.table.shared.key) slot }
    {
        self.range_start <= slot && slot - self.range_start < self.range_len
    }

    // Returns the group of a slot of the allocation range.
    #[inline(always)]
    pub(crate) fn group_of(&self, slot: u32) -> u32
        requires { IsInRange self.now.table.shared.key slot }
        ensures group { result ≡ group_of (range_at_start self.now.table.shared.key) slot }
        ensures few { result < groups_in self.now.range_len }
    {
        (slot - self.range_start) >> self.group_bits
    }

    // Takes a slot that is about to be emptied off its group's count, if it is in the range, and
    // clears the questions of other passes, in at most three steps.
    #[inline(always)]
    pub(crate) fn lower(&self, seat: &mut Seat<Option<OpenFile>, View>, slot: u32, inside: bool)
        requires table { seat.old.table_id ≡ self.now.table.shared.table_id }
        requires at { (number : ℕ) × IsAtWork self.now.table.shared.key number seat.old.me }
        requires change { seat.old.me.0.change ≡ Outside }
        requires inside { inside ≡ is_in (range_at_start self.now.table.shared.key) slot }
        ensures table { seat.new.table_id ≡ seat.old.table_id }
        ensures places { seat.new.me.1 ≡ seat.old.me.1 }
        ensures runs { let range = range_at_start self.now.table.shared.key in
            Runs seat.old.me [] seat.old.me.0.work seat.old.me.0.glance
            (uncounted inside true (group_of range slot)) 3 seat.new.me }
    {
        if inside {
            let shared = &self.table.shared;
            shared.fetch_sub::<Lowering>(seat, group_place(self.group_of(slot)), 1);
            let question = shared.load::<Checking>(seat, QUESTION);
            if question != 0 {
                shared.swap::<Breaking>(seat, QUESTION, 0);
            }
        }
    }

    // Adds a slot that was empty to its group's count, if it is in the range: it is full now, or
    // was taken off the count although it was empty.
    #[inline(always)]
    pub(crate) fn raise(
        &self,
        seat: &mut Seat<Option<OpenFile>, View>,
        slot: u32,
        inside: bool,
        was_empty: bool,
    )
        requires table { seat.old.table_id ≡ self.now.table.shared.table_id }
        requires at { (number : ℕ) × IsAtWork self.now.table.shared.key number seat.old.me }
        requires inside { inside ≡ is_in (range_at_start self.now.table.shared.key) slot }
        requires change { let range = range_at_start self.now.table.shared.key in
            seat.old.me.0.change ≡ uncounted inside was_empty (group_of range slot) }
        ensures table { seat.new.table_id ≡ seat.old.table_id }
        ensures places { seat.new.me.1 ≡ seat.old.me.1 }
        ensures runs { Runs seat.old.me [] seat.old.me.0.work seat.old.me.0.glance Outside 1
            seat.new.me }
    {
        if inside {
            if was_empty {
                let shared = &self.table.shared;
                shared.fetch_add::<Raising>(seat, group_place(self.group_of(slot)), 1);
            }
        }
    }
}
