//! The implementation of `FileTable` for the lock-free table. Of its calls only `put_any` may wait.
ghost use Rattle.std.specs.Prelude.{◌≡◌, ◌≤◌};
ghost use Rattle.fx_counted.specs.Words.{length, map, All, refl, ℕ, ClosesTable, IsIdle, MOST_SLOTS};
ghost use Rattle.fx_counted.specs.Tables.{view_of, opening_of_table, IsPassOfTable};
ghost use mathlib.Core.Path.{subst};

use crate::kinds::Observe;
use crate::layout::CONTROL;
use crate::pass::CountedPass;
use crate::table::CountedTable;
use fx_base::{NoMemory, OpenFile};
use fx_plain::PlainTable;
use fx_table::{CHAIN_NUMBERS, Empty, FileTable, Hold, LookFault, Retired};
use std::alloc::Global;
use std::sync::Wait;

impl FileTable for CountedTable {
    type Pass = CountedPass;

    ghost opening = { opening_of_table };

    ghost fits = { IsPassOfTable };

    ghost view = { view_of };

    fn open(
        alloc: Global,
        plain: PlainTable,
        chains: u32,
        passes: u32,
    ) -> Result<(CountedTable, Vec<CountedPass>), (PlainTable, NoMemory)> {
        CountedTable::open_for(alloc, plain, chains, CHAIN_NUMBERS, passes)
    }

    fn open_for(
        alloc: Global,
        plain: PlainTable,
        chains: u32,
        most: u32,
        passes: u32,
    ) -> Result<(CountedTable, Vec<CountedPass>), (PlainTable, NoMemory)> {
        CountedTable::open_for(alloc, plain, chains, most, passes)
    }

    fn close(self, passes: Vec<CountedPass>) -> PlainTable
        requires all { length passes.items ≡ (opening_of_table self).passes }
        requires ready { All (λ p. IsPassOfTable self p × IsIdle (view_of p)) passes.items }
        ensures { ClosesTable (opening_of_table self) (map view_of passes.items) result }
    {
        self.close(passes)
    }

    fn size(&self) -> u32 {
        self.size
    }

    fn range(&self) -> (u32, u32) {
        (self.range_start, self.range_len)
    }

    fn passes(&self) -> u32 {
        self.passes
    }

    fn is_idle(&self, pass: &CountedPass) -> bool {
        pass.idle
    }

    fn looks_left(&self, pass: &CountedPass) -> u32 {
        pass.looks_left
    }

    fn numbers_left(&self, pass: &CountedPass) -> u32 {
        pass.numbers_left
    }

    fn draw(&self, pass: &mut CountedPass) -> Option<u32> {
        self.draw(pass)
    }

    fn look(&self, _rt: &impl Wait, pass: &mut CountedPass, slot: u32) -> Result<Hold, LookFault> {
        self.look(pass, slot)
    }

    fn release(&self, _rt: &impl Wait, pass: &mut CountedPass, hold: Hold) -> Option<OpenFile> {
        self.release(pass, hold)
    }

    fn put(
        &self,
        _rt: &impl Wait,
        pass: &mut CountedPass,
        slot: u32,
        file: OpenFile,
    ) -> Option<Retired> {
        self.put(pass, slot, file)
    }

    // Scans the range in rounds until it finds an empty slot, or every slot was full at one moment,
    // and yields its thread between two rounds.
    fn put_any(
        &self,
        rt: &impl Wait,
        pass: &mut CountedPass,
        file: OpenFile,
    ) -> Result<u32, OpenFile> {
        let number = self.next_number(pass);
        let identity = file.identity();
        self.put_in(&mut pass.seat, number, file);
        match self.rounds(rt, &mut pass.seat, number, identity) {
            Some(slot) => {
                pass.numbers_left -= 1;
                Ok(slot)
            }
            None => Err(self.take_out(&mut pass.seat, number)),
        }
    }

    fn clear(&self, _rt: &impl Wait, pass: &mut CountedPass, slot: u32) -> Option<Retired> {
        self.clear(pass, slot)
    }

    fn take(&self, _rt: &impl Wait, pass: &mut CountedPass, slot: u32) -> Result<Retired, Empty> {
        self.take(pass, slot)
    }

    fn retire(
        &self,
        _rt: &impl Wait,
        pass: &mut CountedPass,
        retired: Retired,
    ) -> Option<OpenFile> {
        self.retire(pass, retired)
    }

    fn settle(&self, pass: &mut CountedPass) {
        self.table.shared.load::<Observe>(&mut pass.seat, CONTROL);
    }

    ghost fronts = { λ t p fits. fits.seated.front };

    ghost few = { λ t. subst (λ (n : ℕ). n ≤ MOST_SLOTS) t.same_size t.few_slots };

    ghost ends = { λ t. refl };
}
