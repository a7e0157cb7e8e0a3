//! The question whether every slot of the allocation range is full. A pass sets its bit in the
//! question word, visits each group, and then reads whether its bit is still there. A removal
//! clears the word after it has taken its slot off the count, and before it empties the slot: so
//! no group that was found full loses a file while the bit is there. Nobody else sets the bit of a
//! pass, so a bit that is there was never cleared since.
ghost use Rattle.std.specs.Prelude.{◌≡◌, ◌+◌, ◌<◌, ◌≤◌};
ghost use Rattle.fx_lasting.specs.Words.{ℕ, true, false, groups_in, Outside, MOST_INSTALLING, Covered};
ghost use Rattle.fx_lasting.specs.AtWork.{IsAtWork};
ghost use Rattle.fx_lasting.specs.range.Questions.{DecidesIf, AsksSo, VisitsGroup};
ghost use Rattle.fx_lasting.specs.Effects.{pass_in, MeetsOne};
ghost use Rattle.fx_lasting.specs.slots.AtEmpty.{FallsShort};

use crate::kinds::{Asking, Beginning, Counting, Deciding};
use crate::table::LastingTable;
use crate::view::View;
use atomic_table::Seat;
use fx_base::OpenFile;
use table_range::{QUESTION, asks, counts_all, group_place, groups_in, pass_bit};

impl LastingTable {
    // Checks whether every slot of the range is full, for a pass that installs files, in at most
    // three steps more than the range has groups.
    pub(crate) fn ask(&self, seat: &mut Seat<Option<OpenFile>, View>, number: u32) -> bool
        requires table { seat.old.table_id ≡ self.now.table.shared.table_id }
        requires at { IsAtWork self.now.table.shared.key number seat.old.me }
        requires number { number ≤ MOST_INSTALLING }
        requires outside { seat.old.me.0.change ≡ Outside }
        ensures table { seat.new.table_id ≡ seat.old.table_id }
        ensures places { seat.new.me.1 ≡ seat.old.me.1 }
        ensures sure { let groups = groups_in self.now.range_len in
            DecidesIf groups (groups + 3) seat.old.me result seat.new.me }
        ensures short { result ≡ false
            → FallsShort self.now.table.shared.key seat.old.me seat.new.me }
    {
        self.begin(seat, number);
        for group in 0..groups_in(self.range_len) {
            if !self.is_full(seat, group) {
                return false;
            }
        }
        self.decide(seat, number)
    }

    // Sets the bit of the pass in the question word, unless it is there, in at most two steps.
    fn begin(&self, seat: &mut Seat<Option<OpenFile>, View>, number: u32)
        requires table { seat.old.table_id ≡ self.now.table.shared.table_id }
        requires at { IsAtWork self.now.table.shared.key number seat.old.me }
        requires number { number ≤ MOST_INSTALLING }
        ensures table { seat.new.table_id ≡ seat.old.table_id }
        ensures places { seat.new.me.1 ≡ seat.old.me.1 }
        ensures asked { AsksSo (Covered 0) 2 seat.old.me seat.new.me }
        ensures asks { (pass_in seat.new.me).watch.asks ≡ true }
    {
        let shared = &self.table.shared;
        let question = shared.load::<Beginning>(seat, QUESTION);
        if !asks(question, number) {
            shared.fetch_add::<Asking>(seat, QUESTION, pass_bit(number));
        }
    }

    // Visits the next group, in one step. Returns whether it is full.
    fn is_full(&self, seat: &mut Seat<Option<OpenFile>, View>, group: u32) -> bool
        requires table { seat.old.table_id ≡ self.now.table.shared.table_id }
        requires at { (number : ℕ) × IsAtWork self.now.table.shared.key number seat.old.me }
        requires asked { (pass_in seat.old.me).asked ≡ Covered group }
        requires group { group < groups_in self.now.range_len }
        ensures table { seat.new.table_id ≡ seat.old.table_id }
        ensures places { seat.new.me.1 ≡ seat.old.me.1 }
        ensures visits { VisitsGroup group seat.old.me result seat.new.me }
        ensures asks { (pass_in seat.new.me).watch.asks ≡ (pass_in seat.old.me).watch.asks }
        ensures short { result ≡ false → seat.old.me.0.change ≡ Outside
            → FallsShort self.now.table.shared.key seat.old.me seat.new.me }
    {
        let shared = &self.table.shared;
        let word = shared.load::<Counting>(seat, group_place(group));
        counts_all(word, self.range_len, group)
    }

    // Checks whether every slot of the range is full, for a pass that found each group full after
    // it had set its bit, in one step.
    #[inline(always)]
    pub(crate) fn decide(&self, seat: &mut Seat<Option<OpenFile>, View>, number: u32) -> bool
        requires table { seat.old.table_id ≡ self.now.table.shared.table_id }
        requires at { IsAtWork self.now.table.shared.key number seat.old.me }
        requires number { number ≤ MOST_INSTALLING }
        requires asked { (pass_in seat.old.me).asked ≡ Covered (groups_in self.now.range_len) }
        ensures table { seat.new.table_id ≡ seat.old.table_id }
        ensures places { seat.new.me.1 ≡ seat.old.me.1 }
        ensures sure { DecidesIf (groups_in self.now.range_len) 1 seat.old.me result seat.new.me }
        ensures met { result ≡ false → (pass_in seat.old.me).watch.asks ≡ true
            → MeetsOne seat.old.me seat.new.me }
    {
        let question = self.table.shared.load::<Deciding>(seat, QUESTION);
        asks(question, number)
    }
}
