//! The calls of a pass that never wait, allocate or retry: each makes at most as many atomic steps
//! as its clause says.
ghost use Rattle.std.specs.Prelude.{◌≡◌, ◌+◌, ◌<◌, ◌≤◌};
ghost use Rattle.fx_counted.specs.Words.{true, Option, option_map, File, Draws, Looked, Released, Placed, Cleared, Taken, HasRetired, size_of};
ghost use Rattle.fx_counted.specs.Words.{IsIdle, IsHoldOf, IsRetiredOf, retired_of, next_number, takes_in};
ghost use Rattle.fx_table.specs.Settling.{DrawsNext};
ghost use Rattle.fx_counted.specs.Agrees.{Names};
ghost use Rattle.fx_counted.specs.Tables.{view_of, steps_taken, opening_of_table, IsPassOfTable};

use crate::kinds::{Clear, Draw, Install, Look, Release, Retire, Take};
use crate::layout::{DRAW, node_place, slot_place};
use crate::pass::CountedPass;
use crate::table::CountedTable;
use fx_base::OpenFile;
use fx_table::{Empty, FIRST_CHAIN_NUMBER, Hold, LookFault, Retired};
use fx_words::{entry_of, node_of, retire_amount, slot_word, takes_of};

impl CountedTable {
    /// Draws the next chain for an idle pass (`is_idle`), in at most one atomic step. No two passes
    /// get the same chain, and the chains of a pass rise. Returns `None` if all chains are drawn;
    /// from then on each draw of the pass returns `None`, without a step.
    pub fn draw(&self, pass: &mut CountedPass) -> Option<u32>
        requires fits { IsPassOfTable self.now pass.old }
        requires idle { IsIdle (view_of pass.old) }
        ensures fits { IsPassOfTable self.now pass.new }
        ensures drawn { let o = opening_of_table self.now in
            Draws o (view_of pass.old) result (view_of pass.new) }
        ensures next { let o = opening_of_table self.now in
            o.passes ≡ 1 → DrawsNext o (view_of pass.old) result }
        ensures steps { steps_taken pass.new ≤ steps_taken pass.old + 1 }
        ensures no_step { (view_of pass.old).no_chains_left ≡ true
            → steps_taken pass.new ≡ steps_taken pass.old }
    {
        if pass.no_chains_left {
            return None;
        }
        let given = self.table.shared.fetch_add::<Draw>(&mut pass.seat, DRAW, 1);
        if given >= u64::from(self.chains) {
            pass.no_chains_left = true;
            return None;
        }
        let chain = given as u32 + 1;
        pass.chain = chain;
        pass.numbers_left = self.numbers;
        Some(chain)
    }

    /// Looks up a slot below `size`, for an idle pass (`is_idle`), in at most one atomic step. The
    /// file there has one more hold until the pass releases it (io_uring_enter(2),
    /// "IOSQE_FIXED_FILE").
    ///
    /// # Errors
    /// `Spent` if the pass has no look-ups left (`looks_left`); then nothing changes. `Empty` if
    /// the slot has no file. Each look-up uses one of the pass's look-ups unless it returns
    /// `Spent`.
    pub fn look(&self, pass: &mut CountedPass, slot: u32) -> Result<Hold, LookFault>
        requires fits { IsPassOfTable self.now pass.old }
        requires idle { IsIdle (view_of pass.old) }
        requires slot { slot < size_of (opening_of_table self.now) }
        ensures fits { IsPassOfTable self.now pass.new }
        ensures looked { Looked (opening_of_table self.now) (view_of pass.old) slot result
            (view_of pass.new) }
        ensures steps { steps_taken pass.new ≤ steps_taken pass.old + 1 }
    {
        if pass.looks_left == 0 {
            return Err(LookFault::Spent);
        }
        let word = self
            .table
            .shared
            .fetch_add::<Look>(&mut pass.seat, slot_place(slot), 1);
        pass.looks_left -= 1;
        match node_of(word) {
            None => Err(LookFault::Empty),
            Some(node) => {
                pass.idle = false;
                Ok(Hold {
                    node,
                    entry: entry_of(word),
                })
            }
        }
    }

    /// Releases the file that the pass looked up, by the `Hold` that it got, in at most two atomic
    /// steps. Returns the file, to be closed, if it was retired and this was its last hold.
    /// Afterwards the pass is idle.
    pub fn release(&self, pass: &mut CountedPass, hold: Hold) -> Option<OpenFile>
        requires fits { IsPassOfTable self.now pass.old }
        requires held { IsHoldOf (view_of pass.old) hold }
        ensures fits { IsPassOfTable self.now pass.new }
        ensures released { Released (opening_of_table self.now) (view_of pass.old) hold result
            (view_of pass.new) }
        ensures steps { steps_taken pass.new ≤ steps_taken pass.old + 2 }
    {
        let Hold { node, entry: _ } = hold;
        let place = node_place(self.size, node);
        let found = self
            .table
            .shared
            .fetch_sub::<Release>(&mut pass.seat, place, 1);
        pass.idle = true;
        if found != 1 {
            return None;
        }
        Some(self.take_out(&mut pass.seat, node))
    }

    /// Retires the file that the pass removed, by the `Retired` that it got, in at most two atomic
    /// steps. Returns the file, to be closed, if it has no holds now; otherwise its last release
    /// returns it. Afterwards the pass is idle.
    pub fn retire(&self, pass: &mut CountedPass, retired: Retired) -> Option<OpenFile>
        requires fits { IsPassOfTable self.now pass.old }
        requires removed { IsRetiredOf (view_of pass.old) retired }
        ensures fits { IsPassOfTable self.now pass.new }
        ensures retired { HasRetired (opening_of_table self.now) (view_of pass.old) retired result
            (view_of pass.new) }
        ensures steps { steps_taken pass.new ≤ steps_taken pass.old + 2 }
    {
        let Retired {
            node,
            entry: _,
            takes,
        } = retired;
        let place = node_place(self.size, node);
        let amount = retire_amount(takes);
        let found = self
            .table
            .shared
            .fetch_sub::<Retire>(&mut pass.seat, place, amount);
        pass.idle = true;
        if found != amount {
            return None;
        }
        Some(self.take_out(&mut pass.seat, node))
    }

    /// Installs a file at a slot below `size`, under the next number of an idle pass (`is_idle`)
    /// that has one left (`numbers_left`), in at most four atomic steps. Returns the file that it
    /// replaced, to be retired, or `None` (io_uring_prep_openat(3), `io_uring_prep_openat_direct`).
    pub fn put(&self, pass: &mut CountedPass, slot: u32, file: OpenFile) -> Option<Retired>
        requires fits { IsPassOfTable self.now pass.old }
        requires idle { IsIdle (view_of pass.old) }
        requires slot { slot < size_of (opening_of_table self.now) }
        requires numbers { 0 < (view_of pass.old).numbers_left }
        ensures fits { IsPassOfTable self.now pass.new }
        ensures placed { Placed (opening_of_table self.now) (view_of pass.old) slot file result
            (view_of pass.new) }
        ensures steps { steps_taken pass.new ≤ steps_taken pass.old + 4 }
    {
        let number = self.next_number(pass);
        let word = slot_word(number, file.entry());
        self.put_in(&mut pass.seat, number, file);
        let began = self.begin(&mut pass.seat, slot);
        let found = self
            .table
            .shared
            .swap::<Install>(&mut pass.seat, slot_place(slot), word);
        let replaced = removed_in(found);
        self.end(
            &mut pass.seat,
            began,
            if replaced.is_none() { 1 } else { 0 },
        );
        pass.numbers_left -= 1;
        pass.idle = replaced.is_none();
        replaced
    }

    /// Empties a slot below `size` for an update, for an idle pass (`is_idle`), in at most three
    /// atomic steps. Returns the file that was there, to be retired, or `None`
    /// (io_uring_register(2), "IORING_REGISTER_FILES_UPDATE", an entry of -1).
    pub fn clear(&self, pass: &mut CountedPass, slot: u32) -> Option<Retired>
        requires fits { IsPassOfTable self.now pass.old }
        requires idle { IsIdle (view_of pass.old) }
        requires slot { slot < size_of (opening_of_table self.now) }
        ensures fits { IsPassOfTable self.now pass.new }
        ensures cleared { Cleared (opening_of_table self.now) (view_of pass.old) slot result
            (view_of pass.new) }
        ensures steps { steps_taken pass.new ≤ steps_taken pass.old + 3 }
    {
        let began = self.begin(&mut pass.seat, slot);
        let found = self
            .table
            .shared
            .swap::<Clear>(&mut pass.seat, slot_place(slot), 0);
        let removed = removed_in(found);
        self.end(
            &mut pass.seat,
            began,
            if removed.is_none() { 0 } else { -1 },
        );
        pass.idle = removed.is_none();
        removed
    }

    /// Empties a slot below `size` for a close, for an idle pass (`is_idle`), in at most three
    /// atomic steps. Returns the file that was there, to be retired (io_uring_prep_close(3),
    /// `io_uring_prep_close_direct`).
    ///
    /// # Errors
    /// `Empty` if the slot has no file.
    pub fn take(&self, pass: &mut CountedPass, slot: u32) -> Result<Retired, Empty>
        requires fits { IsPassOfTable self.now pass.old }
        requires idle { IsIdle (view_of pass.old) }
        requires slot { slot < size_of (opening_of_table self.now) }
        ensures fits { IsPassOfTable self.now pass.new }
        ensures taken { Taken (opening_of_table self.now) (view_of pass.old) slot result
            (view_of pass.new) }
        ensures steps { steps_taken pass.new ≤ steps_taken pass.old + 3 }
    {
        let began = self.begin(&mut pass.seat, slot);
        let found = self
            .table
            .shared
            .swap::<Take>(&mut pass.seat, slot_place(slot), 0);
        let removed = removed_in(found);
        self.end(
            &mut pass.seat,
            began,
            if removed.is_none() { 0 } else { -1 },
        );
        pass.idle = removed.is_none();
        removed.ok_or(Empty)
    }

    // Returns the number that the pass's next installation uses.
    pub(crate) fn next_number(&self, pass: &CountedPass) -> u32
        requires fits { IsPassOfTable self.now pass.now }
        ensures number { result ≡ next_number (opening_of_table self.now) (view_of pass.now) }
    {
        FIRST_CHAIN_NUMBER + self.numbers * pass.chain - pass.numbers_left
    }
}

// Returns the file that a slot's word names, to be retired, or `None`.
fn removed_in(word: u64) -> Option<Retired>
    ensures { (file : Option File) → Names word file
        → result ≡ option_map (λ f. retired_of f (takes_in word)) file }
{
    Some(Retired {
        node: node_of(word)?,
        entry: entry_of(word),
        takes: takes_of(word),
    })
}
