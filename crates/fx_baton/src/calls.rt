//! The implementation of `FileTable` for the table guarded by one word.
ghost use Rattle.std.specs.Prelude.{◌≡◌, ◌≤◌};
ghost use Rattle.fx_baton.specs.Words.{ℕ, Option, length, map, option_map, All, refl, MOST_SLOTS, File, number_of, IsIdle, retired_of, ClosesTable};
ghost use Rattle.fx_baton.specs.Passes.{next_of, view_of};
ghost use Rattle.fx_baton.specs.Tables.{opening_of_table, IsPassOfTable};
ghost use mathlib.Core.Path.{subst};

use crate::kinds::Observe;
use crate::pass::BatonPass;
use crate::table::BatonTable;
use crate::view::Call;
use fx_base::{NoMemory, OpenFile};
use fx_plain::PlainTable;
use fx_table::{CHAIN_NUMBERS, Empty, FileTable, Hold, LookFault, Retired, numbers_for};
use std::alloc::Global;
use std::sync::Wait;

impl FileTable for BatonTable {
    type Pass = BatonPass;

    ghost opening = { opening_of_table };

    ghost fits = { IsPassOfTable };

    ghost view = { view_of };

    fn open(
        alloc: Global,
        plain: PlainTable,
        chains: u32,
        passes: u32,
    ) -> Result<(BatonTable, Vec<BatonPass>), (PlainTable, NoMemory)> {
        let Ok(mut list) = Vec::with_capacity(alloc, passes as usize) else {
            return Err((plain, NoMemory));
        };
        match BatonTable::start(alloc, plain, chains, passes) {
            Ok((table, seat)) => {
                table.deal(seat, &mut list);
                Ok((table, list))
            }
            Err(refused) => {
                list.destroy_empty();
                Err(refused)
            }
        }
    }

    fn close(self, passes: Vec<BatonPass>) -> PlainTable
        requires all { length passes.items ≡ (opening_of_table self).passes }
        requires ready { All (λ p. IsPassOfTable self p × IsIdle (view_of p)) passes.items }
        ensures { ClosesTable (opening_of_table self) (map view_of passes.items) result }
    {
        self.close(passes)
    }

    fn size(&self) -> u32 {
        self.size
    }

    fn range(&self) -> (u32, u32) {
        (self.range_start, self.range_len)
    }

    fn passes(&self) -> u32 {
        self.passes
    }

    fn is_idle(&self, pass: &BatonPass) -> bool {
        pass.idle
    }

    fn looks_left(&self, pass: &BatonPass) -> u32 {
        pass.looks_left
    }

    fn numbers_left(&self, pass: &BatonPass) -> u32 {
        pass.numbers_left
    }

    // Pass p of n draws the chains p, p + n, p + 2n and so on.
    fn draw(&self, pass: &mut BatonPass) -> Option<u32> {
        if pass.no_chains_left {
            return None;
        }
        let next = if pass.count == 0 {
            pass.number
        } else {
            pass.chain + pass.passes
        };
        if next > self.chains {
            pass.no_chains_left = true;
            return None;
        }
        pass.chain = next;
        pass.count += 1;
        pass.numbers_left = CHAIN_NUMBERS;
        Some(next)
    }

    fn look(&self, rt: &impl Wait, pass: &mut BatonPass, slot: u32) -> Result<Hold, LookFault> {
        if pass.looks_left == 0 {
            return Err(LookFault::Spent);
        }
        self.borrow(rt, pass);
        let plain = pass.seat.slot_mut(&self.table.shared, 0);
        let found = plain.look(slot);
        self.give_back(pass, Call::Look(slot), found.is_none());
        match found {
            None => Err(LookFault::Empty),
            Some((node, entry)) => Ok(Hold { node, entry }),
        }
    }

    fn release(&self, rt: &impl Wait, pass: &mut BatonPass, hold: Hold) -> Option<OpenFile> {
        let Hold { node, entry: _ } = hold;
        self.borrow(rt, pass);
        let plain = pass.seat.slot_mut(&self.table.shared, 0);
        let closed = plain.release(node);
        self.give_back(pass, Call::Release, true);
        closed
    }

    fn put(
        &self,
        rt: &impl Wait,
        pass: &mut BatonPass,
        slot: u32,
        file: OpenFile,
    ) -> Option<Retired> {
        let number = self.next_number(pass);
        let identity = file.identity();
        self.borrow(rt, pass);
        let plain = pass.seat.slot_mut(&self.table.shared, 0);
        let entry = plain.entry_at(slot);
        let replaced = plain.put(slot, number, file);
        self.give_back(pass, Call::Put(slot, number, identity), replaced.is_none());
        retired(replaced, entry)
    }

    fn put_any(
        &self,
        rt: &impl Wait,
        pass: &mut BatonPass,
        file: OpenFile,
    ) -> Result<u32, OpenFile> {
        let number = self.next_number(pass);
        let identity = file.identity();
        self.borrow(rt, pass);
        let plain = pass.seat.slot_mut(&self.table.shared, 0);
        match plain.put_any(number, file) {
            Ok(slot) => {
                self.give_back(pass, Call::Allocate(slot, number, identity), true);
                Ok(slot)
            }
            Err(refused) => {
                self.give_back(pass, Call::Full, true);
                Err(refused)
            }
        }
    }

    fn clear(&self, rt: &impl Wait, pass: &mut BatonPass, slot: u32) -> Option<Retired> {
        self.borrow(rt, pass);
        let plain = pass.seat.slot_mut(&self.table.shared, 0);
        let entry = plain.entry_at(slot);
        let removed = plain.clear(slot);
        self.give_back(pass, Call::Clear(slot), removed.is_none());
        retired(removed, entry)
    }

    fn take(&self, rt: &impl Wait, pass: &mut BatonPass, slot: u32) -> Result<Retired, Empty> {
        self.borrow(rt, pass);
        let plain = pass.seat.slot_mut(&self.table.shared, 0);
        let entry = plain.entry_at(slot);
        let removed = plain.take(slot);
        self.give_back(pass, Call::Take(slot), removed.is_none());
        retired(removed, entry).ok_or(Empty)
    }

    fn retire(&self, rt: &impl Wait, pass: &mut BatonPass, retired: Retired) -> Option<OpenFile> {
        let Retired {
            node,
            entry: _,
            takes: _,
        } = retired;
        self.borrow(rt, pass);
        let plain = pass.seat.slot_mut(&self.table.shared, 0);
        let closed = plain.retire(node);
        self.give_back(pass, Call::Retire, true);
        closed
    }

    fn settle(&self, pass: &mut BatonPass) {
        self.table.shared.load::<Observe>(&mut pass.seat, 0);
    }

    ghost fronts = { λ t p fits. fits.seated.front };

    ghost few = { λ t. subst (λ (n : ℕ). n ≤ MOST_SLOTS) t.same_size t.few_slots };

    ghost ends = { λ t. refl };
}

impl BatonTable {
    // Returns the number that the pass's next installation uses.
    fn next_number(&self, pass: &BatonPass) -> u32
        requires { IsPassOfTable self.now pass.now }
        ensures { result ≡ next_of (view_of pass.now) }
    {
        numbers_for(pass.chain) - pass.numbers_left
    }
}

// Builds the result of a call that removed a file, or `None`.
fn retired(node: Option<u32>, entry: Option<u8>) -> Option<Retired>
    ensures { (found : Option File) → node ≡ number_of found
        → entry ≡ option_map (λ f. f.identity.entry) found
        → result ≡ option_map (λ f. retired_of f 0) found }
{
    Some(Retired {
        node: node?,
        entry: entry?,
        takes: 0,
    })
}
