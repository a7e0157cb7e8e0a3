//! The call for a caller that looks for an empty slot by itself: `put_empty` installs a file at a
//! slot of the allocation range if it is empty.
ghost use Rattle.std.specs.Prelude.{◌≡◌, ◌+◌, ◌<◌, ◌≤◌};
ghost use Rattle.fx_lasting.specs.Words.{ℕ, true, false, IsIdle};
ghost use Rattle.fx_lasting.specs.AtWork.{IsAtWork};
ghost use Rattle.fx_lasting.specs.Laws.{IsInRange};
ghost use Rattle.fx_lasting.specs.Tables.{view_of, steps_taken, IsPassOfTable};
ghost use Rattle.fx_lasting.specs.slots.AtEmpty.{HasPutEmpty, SeesFile};

use crate::answers::PutEmpty;
use crate::fields::file_node_of;
use crate::kinds::Seeing;
use crate::life::layout::slot_place;
use crate::pass::LastingPass;
use crate::table::LastingTable;
use crate::view::View;
use atomic_table::Seat;
use fx_base::OpenFile;

impl LastingTable {
    /// Checks whether the slot is in the allocation range.
    pub fn allocates(&self, slot: u32) -> bool
        ensures inside { result ≡ true → IsInRange self.now.table.shared.key slot }
        ensures outside { result ≡ false → IsInRange self.now.table.shared.key slot → ⊥ }
    {
        self.is_in_range(slot)
    }

    /// Installs a file at a slot of the allocation range (`allocates`) if it is empty, under a
    /// number that no file has had, for an idle pass (`is_idle`) that installs files
    /// (`numbers_left`). It makes at most eight atomic steps more than the table has passes.
    /// Otherwise nothing changes, and the file comes back: the slot has a file, or another pass
    /// changed its word during the call. A table with one pass never answers `Again`.
    pub fn put_empty(&self, pass: &mut LastingPass, slot: u32, file: OpenFile) -> PutEmpty
        requires fits { IsPassOfTable self.now pass.old }
        requires idle { IsIdle (view_of pass.old) }
        requires range { IsInRange self.now.table.shared.key slot }
        requires numbers { 0 < (view_of pass.old).numbers_left }
        ensures fits { IsPassOfTable self.now pass.new }
        ensures placed { HasPutEmpty self.now.table.shared.key pass.old slot file result pass.new }
        ensures steps { let passes = self.now.passes in
            steps_taken pass.new ≤ steps_taken pass.old + (passes + 8) }
    {
        if self.sees_file(&mut pass.seat, slot) {
            return PutEmpty::Stale(file);
        }
        let stock = pass.stock.as_slice();
        let start = pass.next_entry;
        let identity = file.identity();
        let seat = &mut pass.seat;
        let (entry, node, lost) = self.place(seat, pass.number, stock, start, pass.keeps, file);
        pass.next_entry = entry;
        pass.keeps = false;
        if let Some(named) = self.try_slot(&mut pass.seat, node, lost, identity, slot) {
            pass.stock[entry as usize] = named;
            pass.emptied.fill(slot);
            return PutEmpty::Installed;
        }
        PutEmpty::Again(self.take_out(&mut pass.seat, node))
    }

    // Reads whether the slot has a file, in one step.
    #[inline(always)]
    pub(crate) fn sees_file(&self, seat: &mut Seat<Option<OpenFile>, View>, slot: u32) -> bool
        requires table { seat.old.table_id ≡ self.now.table.shared.table_id }
        requires at { (number : ℕ) × IsAtWork self.now.table.shared.key number seat.old.me }
        requires slot { slot < self.now.size }
        ensures table { seat.new.table_id ≡ seat.old.table_id }
        ensures places { seat.new.me.1 ≡ seat.old.me.1 }
        ensures saw { SeesFile self.now.table.shared.key slot seat.old.me result seat.new.me }
    {
        let word = self.table.shared.load::<Seeing>(seat, slot_place(slot));
        file_node_of(word).is_some()
    }
}
