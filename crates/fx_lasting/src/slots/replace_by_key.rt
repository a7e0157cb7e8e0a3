//! The replacement by key. The pass places the new file, then holds the file at the slot and
//! compares its number, so no other file is on that node. It holds it by a take, or at a hot slot
//! by its hold word. Its hold ends with the step that puts the new file there, as that of a removal
//! does (`slots/remove_by_key.rt`). So the pass keeps the old file's node, as after a replacement
//! by slot.
ghost use Rattle.std.specs.Prelude.{◌≡◌, ◌≢◌, ◌+◌, ◌*◌, ◌<◌, ◌≤◌};
ghost use Rattle.fx_lasting.specs.Words.{ℕ, [], true, false, Some, is_some, Closed, File, Adds, no_use, IsIdle, Outside, Cold, Placement, Placing};
ghost use Rattle.fx_table.specs.declared.values.Doing.TheVariants.{Idle as DoesNothing};
ghost use Rattle.fx_lasting.specs.AtWork.{IsAtWork, MayPlace};
ghost use Rattle.fx_lasting.specs.Effects.{IsOnList};
ghost use Rattle.fx_lasting.specs.Ends.{LetsFileGo};
ghost use Rattle.fx_lasting.specs.Passes.{held_in, HoldsOn, is_guarding};
ghost use Rattle.fx_lasting.specs.slots.ReplaceByKey.{AimedAt, Compared, HoldsBeside, IsBeside, PutsAlone, aim_at, Renews, TriedRenewal};
ghost use Rattle.fx_lasting.specs.Tables.{view_of, MeetsMore, steps_taken, opening_of_table, IsPassOfTable, IsSeatOfTable};
ghost use Rattle.fx_lasting.specs.declared.view.Glance.TheVariants.{None as Nothing};

use crate::answers::Miss;
use crate::fields::{file_node_of, file_word, is_hot_at};
use crate::key::Key;
use crate::key_answers::{KeyFault, KeyPut, PutOverKey};
use crate::kinds::{Aiming, Listing, ReadingNumber, ReplacingHeld, TakingBeside};
use crate::life::layout::{list_place, slot_place};
use crate::pass::LastingPass;
use crate::slots::by_key::fault_of;
use crate::slots::by_node::removed_by;
use crate::table::LastingTable;
use crate::tried::{Renewal, Taken};
use crate::view::View;
use atomic_table::Seat;
use fx_base::{Closed, OpenFile};
use table_range::pass_bit;

impl LastingTable {
    /// Installs a file in place of the file of a key, under a number that no file has had
    /// (io_uring_prep_openat(3), `io_uring_prep_openat_direct`), for an idle pass (`is_idle`) that
    /// installs files (`numbers_left`). It makes at most 26 atomic steps more than twice as many as
    /// the table has passes. The replaced file is the one that the pass found by the key, and is to
    /// be retired. Otherwise the slot is left as it is, the new file comes back, and the pass is
    /// idle again. The answer is `Again` only if the slot's word changed during the call.
    #[inline(always)]
    pub fn put_over_key(&self, pass: &mut LastingPass, key: Key, file: OpenFile) -> KeyPut
        requires fits { IsPassOfTable self.now pass.old }
        requires idle { IsIdle (view_of pass.old) }
        requires numbers { 0 < (view_of pass.old).numbers_left }
        ensures fits { IsPassOfTable self.now pass.new }
        ensures placed { PutsAlone self.now.table.shared.key pass.old key file result.put
            result.freed result.released pass.new }
        ensures steps { let passes = self.now.passes in
            steps_taken pass.new ≤ steps_taken pass.old + (2 * passes + 26) }
    {
        if self.size <= key.slot {
            return KeyPut {
                put: PutOverKey::Missed(KeyFault::NoSlot, file),
                freed: None,
                released: None,
            };
        }
        self.enlist(pass);
        let Some(hot) = self.aim(&mut pass.seat, key.slot) else {
            return KeyPut {
                put: PutOverKey::Missed(KeyFault::Empty, file),
                freed: None,
                released: None,
            };
        };
        match self.renew(pass, key, hot, file) {
            Renewal::Ends(put, released) => KeyPut {
                put,
                freed: None,
                released,
            },
            Renewal::Moved(file, freed) => self.renew_cold(pass, key, file, freed),
        }
    }

    // Lists an idle pass that isn't listed, in at most one step.
    #[inline(always)]
    fn enlist(&self, pass: &mut LastingPass)
        requires fits { IsPassOfTable self.now pass.old }
        requires idle { IsIdle (view_of pass.old) }
        ensures fits { IsPassOfTable self.now pass.new }
        ensures adds { Adds (opening_of_table self.now) (view_of pass.old) [] DoesNothing no_use
            (view_of pass.new) }
        ensures listed { pass.new.listed ≡ true }
        ensures number { pass.new.number ≡ pass.old.number }
        ensures steps { steps_taken pass.new ≤ steps_taken pass.old + 1 }
        ensures met { MeetsMore pass.old pass.new }
    {
        if pass.listed {
            return;
        }
        let shared = &self.table.shared;
        let place = list_place(pass.number);
        shared.fetch_add::<Listing>(&mut pass.seat, place, pass_bit(pass.number));
        pass.listed = true;
    }

    // Loads the slot's word, in one step. Returns `None` if the slot is empty. A cold slot's file
    // is to be taken, and a hot slot's node, which it returns, is to be announced.
    #[inline(always)]
    fn aim(&self, seat: &mut Seat<Option<OpenFile>, View>, slot: u32) -> Option<Option<u32>>
        requires table { seat.old.table_id ≡ self.now.table.shared.table_id }
        requires at { (number : ℕ) × IsAtWork self.now.table.shared.key number seat.old.me }
        requires unheld { held_in seat.old.me.0.work ≡ None }
        requires nothing { seat.old.me.0.glance ≡ Nothing }
        requires slot { slot < self.now.size }
        ensures table { seat.new.table_id ≡ seat.old.table_id }
        ensures places { seat.new.me.1 ≡ seat.old.me.1 }
        ensures aimed { AimedAt self.now.table.shared.key slot seat.old.me result seat.new.me }
    {
        let word = self.table.shared.load::<Aiming>(seat, slot_place(slot));
        let Some(node) = file_node_of(word) else {
            return None;
        };
        if is_hot_at(word, node) {
            Some(Some(node))
        } else {
            Some(None)
        }
    }

    // Replaces the file of the key, for an idle listed pass that has aimed at its slot: at a cold
    // one, or at a hot one that named the node `hot`. Makes at most 15 steps more than the table
    // has passes.
    #[inline(always)]
    fn renew(&self, pass: &mut LastingPass, key: Key, hot: Option<u32>, file: OpenFile) -> Renewal
        requires seated { IsSeatOfTable self.now pass.old }
        requires idle { pass.old.idle ≡ true }
        requires may { MayPlace pass.old.keeps pass.old.stock.items pass.old.next_entry
            pass.old.seat.me.0.work }
        requires listed { IsOnList pass.old.seat.me }
        requires aimed { pass.old.seat.me.0.glance ≡ aim_at key.slot hot }
        requires slot { key.slot < self.now.size }
        requires installs { pass.old.number ≤ self.now.installing }
        ensures renews { Renews self.now.table.shared.table_id self.now.table.shared.key pass.old
            key hot file result pass.new }
        ensures steps { let passes = self.now.passes in
            steps_taken pass.new ≤ steps_taken pass.old + (passes + 15) }
        ensures met { MeetsMore pass.old pass.new }
    {
        let stock = pass.stock.as_slice();
        let start = pass.next_entry;
        let identity = file.identity();
        let seat = &mut pass.seat;
        let (entry, own, lost) = self.place(seat, pass.number, stock, start, pass.keeps, file);
        pass.next_entry = entry;
        pass.keeps = false;
        let guarded = hot.is_some();
        let number = pass.number;
        let node = match self.hold_beside(&mut pass.seat, number, key, hot, own) {
            Taken::Its(node) => node,
            Taken::Nothing => {
                let file = self.take_out(&mut pass.seat, own);
                return Renewal::Ends(PutOverKey::Missed(KeyFault::Empty, file), None);
            }
            Taken::Other(node) => {
                let (file, released) = self.unplace(&mut pass.seat, number, guarded, own, node);
                return Renewal::Ends(PutOverKey::Missed(KeyFault::Stale, file), released);
            }
            Taken::Moved(node) => {
                let file = self.take_out(&mut pass.seat, own);
                return Renewal::Moved(file, self.withdraw(&mut pass.seat, number, node));
            }
        };
        let seat = &mut pass.seat;
        match self.try_renewal(seat, number, guarded, key.slot, node, own, lost, identity) {
            Ok(found) => {
                pass.stock[entry as usize] = node;
                pass.next_visit = self.first_visit(found);
                pass.idle = false;
                Renewal::Ends(PutOverKey::Replaced(removed_by(found, node)), None)
            }
            Err(miss) => {
                let (file, released) = self.unplace(&mut pass.seat, number, guarded, own, node);
                Renewal::Ends(PutOverKey::Missed(fault_of(miss), file), released)
            }
        }
    }

    // Replaces the file of the key as `renew` does at a cold slot, after an announcement that may
    // have freed a file.
    #[inline(never)]
    fn renew_cold(
        &self,
        pass: &mut LastingPass,
        key: Key,
        file: OpenFile,
        freed: Option<OpenFile>,
    ) -> KeyPut
        requires seated { IsSeatOfTable self.now pass.old }
        requires idle { pass.old.idle ≡ true }
        requires may { MayPlace pass.old.keeps pass.old.stock.items pass.old.next_entry
            pass.old.seat.me.0.work }
        requires listed { IsOnList pass.old.seat.me }
        requires cold { pass.old.seat.me.0.glance ≡ Cold key.slot }
        requires slot { key.slot < self.now.size }
        requires installs { pass.old.number ≤ self.now.installing }
        ensures fits { IsPassOfTable self.now pass.new }
        ensures freed { result.freed ≡ freed }
        ensures placed { PutsAlone self.now.table.shared.key pass.old key file result.put None
            result.released pass.new }
        ensures steps { let passes = self.now.passes in
            steps_taken pass.new ≤ steps_taken pass.old + (passes + 15) }
        ensures met { MeetsMore pass.old pass.new }
    {
        let renewed = self.renew(pass, key, None, file);
        let Renewal::Ends(put, released) = renewed else {
            unreachable!()
        };
        KeyPut {
            put,
            freed,
            released,
        }
    }

    // Holds what the slot of the key names, beside the file that the pass has placed on its own
    // node, and compares its number, in at most three steps. Takes what a cold slot names, or
    // announces the node `hot`. Returns what it holds.
    #[inline(always)]
    fn hold_beside(
        &self,
        seat: &mut Seat<Option<OpenFile>, View>,
        number: u32,
        key: Key,
        hot: Option<u32>,
        own: u32,
    ) -> Taken
        requires table { seat.old.table_id ≡ self.now.table.shared.table_id }
        requires at { IsAtWork self.now.table.shared.key number seat.old.me }
        requires listed { IsOnList seat.old.me }
        requires placing { (placement : Placement) × (seat.old.me.0.work ≡ Placing own placement) }
        requires aimed { seat.old.me.0.glance ≡ aim_at key.slot hot }
        requires slot { key.slot < self.now.size }
        ensures table { seat.new.table_id ≡ seat.old.table_id }
        ensures places { seat.new.me.1 ≡ seat.old.me.1 }
        ensures holds { (placement : Placement) → seat.old.me.0.work ≡ Placing own placement
            → HoldsBeside self.now.table.shared.key key own placement hot seat.old.me result
            seat.new.me }
    {
        let Some(node) = hot else {
            let shared = &self.table.shared;
            let word = shared.fetch_add::<TakingBeside>(seat, slot_place(key.slot), 1);
            self.heat(seat, key.slot, word);
            let Some(node) = file_node_of(word) else {
                return Taken::Nothing;
            };
            return self.compare(seat, key, node);
        };
        if self.guard(seat, number, key.slot, node).is_none() {
            return Taken::Moved(node);
        }
        self.compare(seat, key, node)
    }

    // Compares the number of the file that the pass holds on the node with that of the key, in one
    // step. Returns whether it is the key's file.
    #[inline(always)]
    fn compare(&self, seat: &mut Seat<Option<OpenFile>, View>, key: Key, node: u32) -> Taken
        requires table { seat.old.table_id ≡ self.now.table.shared.table_id }
        requires at { (number : ℕ) × IsAtWork self.now.table.shared.key number seat.old.me }
        requires holds { (f : File) × HoldsOn seat.old.me.0.work f node }
        ensures table { seat.new.table_id ≡ seat.old.table_id }
        ensures places { seat.new.me.1 ≡ seat.old.me.1 }
        ensures compared { (f : File) → HoldsOn seat.old.me.0.work f node
            → Compared self.now.table.shared.key key node f seat.old.me result seat.new.me }
    {
        let place = self.number_place(node);
        let number = self.table.shared.load::<ReadingNumber>(seat, place);
        if names(key, number) {
            Taken::Its(node)
        } else {
            Taken::Other(node)
        }
    }

    // Puts the file that the pass places on its own node at the slot while the slot's word names
    // the other node, whose file the pass holds, in at most six steps. The hold ends then. Returns
    // the word that it found, without the pass's own take.
    #[inline(always)]
    fn try_renewal(
        &self,
        seat: &mut Seat<Option<OpenFile>, View>,
        number: u32,
        guarded: bool,
        slot: u32,
        node: u32,
        own: u32,
        lost: u64,
        file: Closed,
    ) -> Result<u64, Miss>
        requires table { seat.old.table_id ≡ self.now.table.shared.table_id }
        requires at { IsAtWork self.now.table.shared.key number seat.old.me }
        requires beside { IsBeside node own lost file seat.old.me }
        requires guarded { guarded ≡ is_guarding seat.old.me.0.work }
        requires slot { slot < self.now.size }
        requires change { seat.old.me.0.change ≡ Outside }
        ensures table { seat.new.table_id ≡ seat.old.table_id }
        ensures tried { TriedRenewal self.now.table.shared.key slot node own file seat.old.me result
            seat.new.me }
    {
        let word = match self.see(seat, slot, node) {
            Ok(word) => word,
            Err(miss) => return Err(miss),
        };
        let new = Some(file_word(own, file.entry) + lost);
        match self.try_exchange::<ReplacingHeld>(seat, slot, node, word, new) {
            Ok(found) => Ok(self.end_hold(seat, number, guarded, found)),
            Err(miss) => Err(miss),
        }
    }

    // Takes the file that the pass places out of its own node's place, and releases the file of the
    // other node, in at most four steps. Returns both files; the released one if it was retired and
    // no other pass uses it.
    #[inline(always)]
    fn unplace(
        &self,
        seat: &mut Seat<Option<OpenFile>, View>,
        number: u32,
        guarded: bool,
        own: u32,
        node: u32,
    ) -> (OpenFile, Option<OpenFile>)
        requires table { seat.old.table_id ≡ self.now.table.shared.table_id }
        requires at { IsAtWork self.now.table.shared.key number seat.old.me }
        requires beside { (lost : ℕ) × (file : Closed) × IsBeside node own lost file seat.old.me }
        requires guarded { guarded ≡ is_guarding seat.old.me.0.work }
        ensures table { seat.new.table_id ≡ seat.old.table_id }
        ensures file { (lost : ℕ) → (file : Closed) → IsBeside node own lost file seat.old.me
            → result.0 ≡ file }
        ensures released { (f : File) → held_in seat.old.me.0.work ≡ Some f
            → LetsFileGo seat.old.me f 4 result.1 seat.new.me }
        ensures places { seat.new.me.1 ≡ [] }
    {
        let file = self.take_out(seat, own);
        if guarded {
            return (file, self.step_down(seat, number, node));
        }
        (file, self.let_go(seat, node))
    }
}

// Returns whether the key names a file with this number.
fn names(key: Key, number: u64) -> bool
    ensures yes { result ≡ true → (key.number ≢ 0) × (number ≡ key.number) }
    ensures no { result ≡ false → key.number ≢ 0 → number ≢ key.number }
{
    key.number == number && number != 0
}
