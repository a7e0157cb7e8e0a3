//! The removal by key. The pass holds the file of the key, so no other file is on its node. Its
//! hold ends with the step that empties the slot. If it held the file by a take, the retirement
//! counts one take less, and nothing is dropped. If it held it by its hold word, the next step
//! stores 0 there: a retirement visits the other passes only, so nobody has charged it. So the pass
//! keeps the node, as after a removal by slot.
ghost use Rattle.std.specs.Prelude.{◌≡◌, ◌+◌, ◌<◌, ◌≤◌};
ghost use Rattle.fx_lasting.specs.Words.{ℕ, [], Some, File, size_of, IsHoldOf, IsIdle, entry_in};
ghost use Rattle.fx_lasting.specs.Laws.{IsOffCount};
ghost use Rattle.fx_lasting.specs.Passes.{HoldsAlone};
ghost use Rattle.fx_lasting.specs.slots.RemoveByKey.{HasTakenHeld, TakesAlone, TriedOutHeld};
ghost use Rattle.fx_lasting.specs.AtWork.{IsAtWork};
ghost use Rattle.fx_lasting.specs.Ends.{Does};
ghost use Rattle.fx_lasting.specs.slots.ByNode.{TriesTake};
ghost use Rattle.fx_lasting.specs.Fields.{full_name_in};
ghost use Rattle.fx_lasting.specs.Effects.{HasItsHold, leaving_work, pass_in, retiring_work};
ghost use Rattle.fx_lasting.specs.Tables.{view_of, steps_taken, opening_of_table, IsPassOfTable};

use crate::answers::Miss;
use crate::fields::empty_word;
use crate::key::Key;
use crate::key_answers::{KeyLook, KeyTaken};
use crate::kinds::{EndingHold, SwappingHeld, TakingHeld};
use crate::pass::LastingPass;
use crate::slots::by_key::fault_of;
use crate::slots::by_node::removed_by;
use crate::table::LastingTable;
use crate::view::View;
use atomic_table::Seat;
use fx_base::OpenFile;
use fx_table::{Hold, Retired};

impl LastingTable {
    /// Empties the slot of the file of a key for a close (io_uring_prep_close(3),
    /// `io_uring_prep_close_direct`), for an idle pass (`is_idle`), in at most 25 atomic steps. The
    /// removed file is the one that the pass found by the key, and is to be retired. Otherwise the
    /// slot is left as it is, and the pass is idle again. The answer is `Again` only if the slot's
    /// word changed during the call.
    #[inline(always)]
    pub fn take_key(&self, pass: &mut LastingPass, key: Key) -> KeyTaken
        requires fits { IsPassOfTable self.now pass.old }
        requires idle { IsIdle (view_of pass.old) }
        ensures fits { IsPassOfTable self.now pass.new }
        ensures taken { TakesAlone self.now.table.shared.key pass.old key result.taken result.freed
            result.released pass.new }
        ensures steps { steps_taken pass.new ≤ steps_taken pass.old + 25 }
    {
        let KeyLook {
            found,
            freed,
            released,
        } = self.look_key(pass, key);
        let hold = match found {
            Ok(hold) => hold,
            Err(fault) => {
                return KeyTaken {
                    taken: Err(fault),
                    freed,
                    released,
                };
            }
        };
        let None = released else { unreachable!() };
        let miss = match self.take_held(pass, key.slot, &hold) {
            Err(miss) => miss,
            Ok(retired) => {
                let Hold { node: _, entry: _ } = hold;
                return KeyTaken {
                    taken: Ok(retired),
                    freed,
                    released: None,
                };
            }
        };
        let released = self.release(pass, hold);
        KeyTaken {
            taken: Err(fault_of(miss)),
            freed,
            released,
        }
    }

    // Empties the slot for a close, if its file is on the node of the hold, for a pass that holds
    // the file, in at most nine steps. The hold ends then. Otherwise the pass holds the file still.
    #[inline(always)]
    fn take_held(&self, pass: &mut LastingPass, slot: u32, hold: &Hold) -> Result<Retired, Miss>
        requires fits { IsPassOfTable self.now pass.old }
        requires held { IsHoldOf (view_of pass.old) hold.now }
        requires slot { slot < size_of (opening_of_table self.now) }
        ensures fits { IsPassOfTable self.now pass.new }
        ensures taken { HasTakenHeld self.now.table.shared.key (view_of pass.old) slot hold.now
            result (view_of pass.new) }
        ensures tries { TriesTake self.now.table.shared.key slot result pass.old pass.new }
        ensures steps { steps_taken pass.new ≤ steps_taken pass.old + 9 }
    {
        let node = hold.node;
        let word = match self.see(&mut pass.seat, slot, node) {
            Ok(word) => word,
            Err(miss) => return Err(miss),
        };
        let inside = self.is_in_range(slot);
        self.lower(&mut pass.seat, slot, inside);
        let entry = pass.next_entry;
        let seat = &mut pass.seat;
        let stock = &mut pass.stock;
        match self.try_out(seat, stock, entry, slot, node, word) {
            Ok(found) => {
                let found = self.end_hold(&mut pass.seat, pass.number, pass.guarded, found);
                pass.next_visit = self.first_visit(found);
                pass.emptied.keep(slot, inside, false);
                Ok(removed_by(found, node))
            }
            Err(miss) => {
                self.raise(&mut pass.seat, slot, inside, true);
                Err(miss)
            }
        }
    }

    // Empties the slot of the file that the pass holds while its word names the file's node, in at
    // most four steps. Returns the word that it found. The slot names the node at the entry of the
    // stock then, and the stock has the node that the slot named. A pass without a stock leaves the
    // name at the slot.
    #[inline(always)]
    fn try_out(
        &self,
        seat: &mut Seat<Option<OpenFile>, View>,
        stock: &mut Vec<u32>,
        entry: u32,
        slot: u32,
        node: u32,
        word: u64,
    ) -> Result<u64, Miss>
        requires table { seat.old.table_id ≡ self.now.table.shared.table_id }
        requires at { (number : ℕ) × IsAtWork self.now.table.shared.key number seat.old.me }
        requires stock { stock.old.items ≡ (pass_in seat.old.me).stock }
        requires slot { slot < self.now.size }
        requires named { full_name_in word ≡ node + 1 }
        requires holds { (f : File) × HoldsAlone seat.old.me.0.work f node }
        requires off { IsOffCount self.now.table.shared.key slot seat.old.me.0.change }
        ensures table { seat.new.table_id ≡ seat.old.table_id }
        ensures places { seat.new.me.1 ≡ seat.old.me.1 }
        ensures tried { TriedOutHeld self.now.table.shared.key slot node stock.new.items
            seat.old.me result seat.new.me }
    {
        let at = entry as usize;
        if stock.len() <= at {
            return self.try_exchange::<TakingHeld>(seat, slot, node, word, None);
        }
        let own = Some(empty_word(stock[at]));
        let found = self.try_exchange::<SwappingHeld>(seat, slot, node, word, own)?;
        stock[at] = node;
        Ok(found)
    }

    // Ends the hold of the file that the pass has just removed, and whose slot had this word, in at
    // most one step: its hold word names no node, or its take is left out of the word. Returns the
    // word without it.
    #[inline(always)]
    pub(crate) fn end_hold(
        &self,
        seat: &mut Seat<Option<OpenFile>, View>,
        number: u32,
        guarded: bool,
        word: u64,
    ) -> u64
        requires table { seat.old.table_id ≡ self.now.table.shared.table_id }
        requires at { IsAtWork self.now.table.shared.key number seat.old.me }
        requires left { (f : File)
            × (seat.old.me.0.work ≡ leaving_work self.now.table.shared.key guarded word f) }
        requires hold { HasItsHold guarded word }
        ensures table { seat.new.table_id ≡ seat.old.table_id }
        ensures places { seat.new.me.1 ≡ seat.old.me.1 }
        ensures named { full_name_in result ≡ full_name_in word }
        ensures entry { entry_in result ≡ entry_in word }
        ensures ended { (f : File)
            → seat.old.me.0.work ≡ leaving_work self.now.table.shared.key guarded word f
            → Does seat.old.me [] (retiring_work self.now.table.shared.key result (Some f)) 1
            seat.new.me }
    {
        if guarded {
            let place = self.hold_place(number);
            self.table.shared.store::<EndingHold>(seat, place, 0);
            return word;
        }
        word - 1
    }
}
