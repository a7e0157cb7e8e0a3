//! The calls of a pass that never wait, allocate or retry: each makes at most as many atomic steps
//! as its clause says. They are inlined into their caller with all that they call: if a withdrawal
//! were a call, each look-up would have a stack frame. These hints change no proof.
ghost use Rattle.std.specs.Prelude.{◌≡◌, ◌≢◌, ◌+◌, ◌*◌, ◌-◌, ◌/◌, ◌<◌, ◌≤◌};
ghost use Rattle.fx_lasting.specs.Words.{false, Option, option_map, Err, File, Looked, LookedUp, Released, Placed, HasRetired, size_of, IsIdle};
ghost use Rattle.fx_lasting.specs.Words.{IsHoldOf, IsRetiredOf, Spent, Hot, Cold};
ghost use Rattle.fx_table.specs.Calls.{Taken};
ghost use Rattle.fx_lasting.specs.Fields.{count_in, full_name_in};
ghost use Rattle.fx_lasting.specs.Tables.{view_of, MeetsMore, steps_taken, retired_at, opening_of_table, IsPassOfTable, IsSeatOfTable};
ghost use Rattle.fx_lasting.specs.Effects.{Found, first_visit, IsOnList};
ghost use Rattle.fx_lasting.specs.slots.SwapSteps.{HasRemoved};
ghost use Rattle.fx_lasting.specs.declared.view.Work.TheVariants.{Idle};

use crate::fields::{count_of, file_node_of, file_word, is_hot, node_named, retire_amount};
use crate::kinds::{Finishing, Glancing, Installing, Listing, Retire, Taking};
use crate::life::layout::{list_place, slot_place};
use crate::pass::LastingPass;
use crate::table::LastingTable;
use fx_base::OpenFile;
use fx_table::{Empty, Hold, LookFault, LookUp, Retired};
use fx_words::entry_of;
use table_range::pass_bit;

impl LastingTable {
    /// Looks up a slot below `size`, for an idle pass (`is_idle`), in at most nine atomic steps.
    /// The file there has one more hold until the pass releases it (io_uring_enter(2),
    /// "IOSQE_FIXED_FILE"). The file that the look-up first saw may be removed before it is held.
    /// The look-up then looks again, and returns the removed file as `freed`, to be closed, if it
    /// was its last user.
    ///
    /// # Errors
    /// In `found`: `Empty` if the slot has no file.
    #[inline(always)]
    pub fn look_up(&self, pass: &mut LastingPass, slot: u32) -> LookUp
        requires fits { IsPassOfTable self.now pass.old }
        requires idle { IsIdle (view_of pass.old) }
        requires slot { slot < size_of (opening_of_table self.now) }
        ensures fits { IsPassOfTable self.now pass.new }
        ensures looked { LookedUp (opening_of_table self.now) (view_of pass.old) slot result.found
            result.freed (view_of pass.new) }
        ensures never_spent { result.found ≢ Err Spent }
        ensures steps { steps_taken pass.new ≤ steps_taken pass.old + 9 }
        ensures met { MeetsMore pass.old pass.new }
    {
        self.settle(pass);
        let shared = &self.table.shared;
        let word = shared.load::<Glancing>(&mut pass.seat, slot_place(slot));
        let Some(node) = file_node_of(word) else {
            return LookUp {
                found: Err(LookFault::Empty),
                freed: None,
            };
        };
        if !pass.listed {
            let place = list_place(pass.number);
            shared.fetch_add::<Listing>(&mut pass.seat, place, pass_bit(pass.number));
            pass.listed = true;
            let found = self.look_cold(pass, slot);
            return LookUp { found, freed: None };
        }
        if is_hot(word) {
            return self.look_hot(pass, slot, node);
        }
        let found = self.look_cold(pass, slot);
        LookUp { found, freed: None }
    }

    // Looks up a slot that named the node and was hot, for a listed pass, in at most seven steps.
    #[inline(always)]
    fn look_hot(&self, pass: &mut LastingPass, slot: u32, node: u32) -> LookUp
        requires seated { IsSeatOfTable self.now pass.old }
        requires idle { pass.old.seat.me.0.work ≡ Idle }
        requires unkept { pass.old.keeps ≡ false }
        requires listed { IsOnList pass.old.seat.me }
        requires hot { pass.old.seat.me.0.glance ≡ Hot slot node }
        requires slot { slot < self.now.size }
        ensures fits { IsPassOfTable self.now pass.new }
        ensures looked { LookedUp (opening_of_table self.now) (view_of pass.old) slot result.found
            result.freed (view_of pass.new) }
        ensures never_spent { result.found ≢ Err Spent }
        ensures steps { steps_taken pass.new ≤ steps_taken pass.old + 7 }
        ensures met { MeetsMore pass.old pass.new }
    {
        match self.guard(&mut pass.seat, pass.number, slot, node) {
            Some(entry) => {
                pass.idle = false;
                pass.guarded = true;
                LookUp {
                    found: Ok(Hold { node, entry }),
                    freed: None,
                }
            }
            None => {
                let freed = self.withdraw(&mut pass.seat, pass.number, node);
                let found = self.look_cold(pass, slot);
                LookUp { found, freed }
            }
        }
    }

    // Takes what the slot names, for a listed pass, and heats the slot if it had its takes, in at
    // most two steps.
    #[inline(always)]
    fn look_cold(&self, pass: &mut LastingPass, slot: u32) -> Result<Hold, LookFault>
        requires seated { IsSeatOfTable self.now pass.old }
        requires idle { pass.old.seat.me.0.work ≡ Idle }
        requires unkept { pass.old.keeps ≡ false }
        requires listed { IsOnList pass.old.seat.me }
        requires cold { pass.old.seat.me.0.glance ≡ Cold slot }
        requires slot { slot < self.now.size }
        ensures fits { IsPassOfTable self.now pass.new }
        ensures looked { Looked (opening_of_table self.now) (view_of pass.old) slot result
            (view_of pass.new) }
        ensures never_spent { result ≢ Err Spent }
        ensures steps { steps_taken pass.new ≤ steps_taken pass.old + 2 }
        ensures met { MeetsMore pass.old pass.new }
    {
        let shared = &self.table.shared;
        let word = shared.fetch_add::<Taking>(&mut pass.seat, slot_place(slot), 1);
        self.heat(&mut pass.seat, slot, word);
        pass.guarded = false;
        pass.idle = true;
        let Some(node) = file_node_of(word) else {
            return Err(LookFault::Empty);
        };
        pass.idle = false;
        let entry = entry_of(word);
        Ok(Hold { node, entry })
    }

    /// Releases the file that the pass looked up, by the `Hold` that it got, in at most three
    /// atomic steps. Returns the file, to be closed, if it was retired and nobody else uses it.
    /// Afterwards the pass is idle.
    #[inline(always)]
    pub fn release(&self, pass: &mut LastingPass, hold: Hold) -> Option<OpenFile>
        requires fits { IsPassOfTable self.now pass.old }
        requires held { IsHoldOf (view_of pass.old) hold }
        ensures fits { IsPassOfTable self.now pass.new }
        ensures released { Released (opening_of_table self.now) (view_of pass.old) hold result
            (view_of pass.new) }
        ensures steps { steps_taken pass.new ≤ steps_taken pass.old + 3 }
        ensures met { MeetsMore pass.old pass.new }
    {
        let Hold { node, entry: _ } = hold;
        pass.idle = true;
        if pass.guarded {
            return self.step_down(&mut pass.seat, pass.number, node);
        }
        self.let_go(&mut pass.seat, node)
    }

    /// Installs a file at a slot below `size`, under a number that no file has had, for an idle
    /// pass (`is_idle`) that installs files (`numbers_left`). It makes at most five atomic steps
    /// more than the table has passes. Returns the file that it replaced, to be retired, or
    /// `None` (io_uring_prep_openat(3), `io_uring_prep_openat_direct`).
    #[inline(always)]
    pub fn put(&self, pass: &mut LastingPass, slot: u32, file: OpenFile) -> Option<Retired>
        requires fits { IsPassOfTable self.now pass.old }
        requires idle { IsIdle (view_of pass.old) }
        requires slot { slot < size_of (opening_of_table self.now) }
        requires numbers { 0 < (view_of pass.old).numbers_left }
        ensures fits { IsPassOfTable self.now pass.new }
        ensures placed { Placed (opening_of_table self.now) (view_of pass.old) slot file result
            (view_of pass.new) }
        ensures steps { let passes = self.now.passes in
            steps_taken pass.new ≤ steps_taken pass.old + (passes + 5) }
    {
        let stock = pass.stock.as_slice();
        let start = pass.next_entry;
        let file_entry = file.entry();
        let seat = &mut pass.seat;
        let (entry, node, lost) = self.place(seat, pass.number, stock, start, pass.keeps, file);
        let word = file_word(node, file_entry) + lost;
        let shared = &self.table.shared;
        let found = shared.swap::<Installing>(&mut pass.seat, slot_place(slot), word);
        let replaced = removed_in(found);
        let inside = self.is_in_range(slot);
        self.raise(&mut pass.seat, slot, inside, replaced.is_none());
        pass.stock[entry as usize] = node_named(found);
        pass.next_entry = entry;
        pass.keeps = false;
        pass.next_visit = self.first_visit(found);
        pass.idle = replaced.is_none();
        replaced
    }

    /// Empties a slot below `size` for a close, for an idle pass (`is_idle`), in at most six
    /// atomic steps. Returns the file that was there, to be retired (io_uring_prep_close(3),
    /// `io_uring_prep_close_direct`).
    ///
    /// # Errors
    /// `Empty` if the slot has no file.
    #[inline(always)]
    pub fn take(&self, pass: &mut LastingPass, slot: u32) -> Result<Retired, Empty>
        requires fits { IsPassOfTable self.now pass.old }
        requires idle { IsIdle (view_of pass.old) }
        requires slot { slot < size_of (opening_of_table self.now) }
        ensures fits { IsPassOfTable self.now pass.new }
        ensures taken { Taken (opening_of_table self.now) (view_of pass.old) slot result
            (view_of pass.new) }
        ensures steps { steps_taken pass.new ≤ steps_taken pass.old + 6 }
    {
        self.remove(pass, slot).ok_or(Empty)
    }

    // Empties the slot, for an idle pass, in at most six steps. Returns the file that was there, to
    // be retired.
    #[inline(always)]
    fn remove(&self, pass: &mut LastingPass, slot: u32) -> Option<Retired>
        requires fits { IsPassOfTable self.now pass.old }
        requires idle { IsIdle (view_of pass.old) }
        requires slot { slot < size_of (opening_of_table self.now) }
        ensures fits { IsPassOfTable self.now pass.new }
        ensures removed { HasRemoved (opening_of_table self.now) (view_of pass.old) slot result
            (view_of pass.new) }
        ensures steps { steps_taken pass.new ≤ steps_taken pass.old + 6 }
    {
        self.settle(pass);
        let inside = self.is_in_range(slot);
        self.lower(&mut pass.seat, slot, inside);
        let entry = pass.next_entry;
        let found = self.empty_slot(&mut pass.seat, &mut pass.stock, entry, slot);
        let removed = removed_in(found);
        self.raise(&mut pass.seat, slot, inside, removed.is_none());
        pass.next_visit = self.first_visit(found);
        pass.idle = removed.is_none();
        pass.emptied.keep(slot, inside, pass.idle);
        removed
    }

    /// Retires the file that the pass removed, by the `Retired` that it got, in at most twice as
    /// many atomic steps as the table has passes, one for each 64 passes, and one more. Returns the
    /// file, to be closed, if nobody uses it now. Otherwise its last release returns it, or a
    /// look-up that first saw it and came too late (`LookUp::freed`). Afterwards the pass is idle.
    #[inline(always)]
    pub fn retire(&self, pass: &mut LastingPass, retired: Retired) -> Option<OpenFile>
        requires fits { IsPassOfTable self.now pass.old }
        requires removed { IsRetiredOf (view_of pass.old) retired }
        ensures fits { IsPassOfTable self.now pass.new }
        ensures retired { HasRetired (opening_of_table self.now) (view_of pass.old) retired result
            (view_of pass.new) }
        ensures steps { let passes = self.now.passes in
            steps_taken pass.new ≤ steps_taken pass.old + (2 * passes + (passes + 63) / 64 + 1) }
    {
        let Retired {
            node,
            entry: _,
            takes,
        } = retired;
        let charges = self.charge_all(&mut pass.seat, pass.number, node, pass.next_visit);
        let place = self.node_place(node);
        let amount = retire_amount(takes, charges);
        let shared = &self.table.shared;
        pass.idle = true;
        let left = shared.load::<Finishing>(&mut pass.seat, place);
        if left == amount + 1 {
            let stock = pass.stock.as_slice();
            let entry = pass.next_entry;
            let (freed, keeps) = self.take_out_or_keep(&mut pass.seat, node, place, stock, entry);
            pass.keeps = keeps;
            return Some(freed);
        }
        let found = shared.fetch_sub::<Retire>(&mut pass.seat, place, amount);
        if found != amount + 1 {
            return None;
        }
        Some(self.take_out(&mut pass.seat, node))
    }

    // Returns the first pass that the retirement of a removed file may visit, from the word that
    // named the file: a file of a slot that wasn't hot is held by takes alone.
    pub(crate) fn first_visit(&self, word: u64) -> u32
        ensures { result ≡ first_visit self.now.passes word }
    {
        if is_hot(word) { 1 } else { self.passes + 1 }
    }
}

// Returns the file that was at a slot with this word, to be retired, or `None`.
fn removed_in(word: u64) -> Option<Retired>
    ensures { (file : Option File) → Found word file
        → result ≡ option_map (λ f. retired_at f (full_name_in word - 1) (count_in word)) file }
{
    match file_node_of(word) {
        None => None,
        Some(node) => Some(Retired {
            node,
            entry: entry_of(word),
            takes: count_of(word),
        }),
    }
}
