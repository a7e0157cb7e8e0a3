//! The search for an empty slot of the allocation range, for a caller that installs a file there
//! later (`put_empty`). It looks where an allocation looks, and changes no word.
ghost use Rattle.std.specs.Prelude.{◌≡◌, ◌+◌, ◌-◌, ◌*◌, ◌<◌, ◌≤◌, None};
ghost use Rattle.fx_lasting.specs.Words.{ℕ, IsIdle, groups_in, MOST_PASSES};
ghost use Rattle.fx_lasting.specs.AtWork.{IsAtWork};
ghost use Rattle.fx_lasting.specs.Tables.{MeetsMore, view_of, steps_taken, IsPassOfTable};
ghost use Rattle.fx_lasting.specs.Laws.{IsInRange};
ghost use Rattle.fx_lasting.specs.range.Scans.{EachFrom, EachInGroup, EachInRange, WasFull};
ghost use Rattle.fx_lasting.specs.range.Tries.{group_steps, scan_steps};
ghost use Rattle.fx_lasting.specs.slots.AtEmpty.{HasSearched, LooksFor};

use crate::answers::FoundSlot;
use crate::kinds::Peeking;
use crate::pass::LastingPass;
use crate::range::put_any::{start_within, step_of};
use crate::table::LastingTable;
use crate::view::View;
use atomic_table::Seat;
use fx_base::OpenFile;
use table_range::{counts_all, group_len, group_place, group_size, groups_in};

impl LastingTable {
    /// Finds an empty slot of the allocation range, for an idle pass (`is_idle`) that installs
    /// files (`numbers_left`). It looks at the slots that `try_put_any` tries, and makes at most
    /// three atomic steps for each slot of a group, two for each group, and seven more. Nothing
    /// changes: another pass may fill the slot before `put_empty` is called.
    pub fn find(&self, pass: &mut LastingPass) -> FoundSlot
        requires fits { IsPassOfTable self.now pass.old }
        requires idle { IsIdle (view_of pass.old) }
        requires numbers { 0 < (view_of pass.old).numbers_left }
        ensures fits { IsPassOfTable self.now pass.new }
        ensures found { HasSearched self.now.table.shared.key pass.old result pass.new }
        ensures met { MeetsMore pass.old pass.new }
        ensures steps { let len = self.now.range_len in
            steps_taken pass.new ≤ steps_taken pass.old + (scan_steps len + groups_in len + 4) }
    {
        if self.is_still_full(pass) {
            return FoundSlot::Full;
        }
        let from = pass.emptied.take_last();
        if let Some(slot) = self.look_for(&mut pass.seat, pass.number, from) {
            return FoundSlot::At(slot);
        }
        if self.is_all_full(pass) {
            FoundSlot::Full
        } else {
            FoundSlot::Again
        }
    }

    // Looks for an empty slot of the range, from `from` on, if that is in the range, and then once
    // over the groups that aren't full.
    #[inline(always)]
    fn look_for(
        &self,
        seat: &mut Seat<Option<OpenFile>, View>,
        number: u32,
        from: u32,
    ) -> Option<u32>
        requires table { seat.old.table_id ≡ self.now.table.shared.table_id }
        requires at { IsAtWork self.now.table.shared.key number seat.old.me }
        requires number { number ≤ MOST_PASSES }
        ensures table { seat.new.table_id ≡ seat.old.table_id }
        ensures places { seat.new.me.1 ≡ seat.old.me.1 }
        ensures looks { LooksFor self.now.table.shared.key (scan_steps self.now.range_len)
            seat.old.me result seat.new.me }
        ensures full { let k = self.now.table.shared.key in result ≡ None
            → EachInRange k (WasFull k seat.old.me seat.new.me) }
    {
        if self.range_len == 0 {
            return None;
        }
        let first = self.first_slot(from, number);
        if !self.sees_file(seat, first) {
            return Some(first);
        }
        let start = self.scan_start(first, from);
        self.look_in_groups(seat, number, start)
    }

    // Looks for one in the groups, from the slot `first` on.
    fn look_in_groups(
        &self,
        seat: &mut Seat<Option<OpenFile>, View>,
        number: u32,
        first: u32,
    ) -> Option<u32>
        requires table { seat.old.table_id ≡ self.now.table.shared.table_id }
        requires at { IsAtWork self.now.table.shared.key number seat.old.me }
        requires first { IsInRange self.now.table.shared.key first }
        ensures table { seat.new.table_id ≡ seat.old.table_id }
        ensures places { seat.new.me.1 ≡ seat.old.me.1 }
        ensures looks { let len = self.now.range_len in
            LooksFor self.now.table.shared.key (groups_in len * group_steps len) seat.old.me result
            seat.new.me }
        ensures full { let k = self.now.table.shared.key in result ≡ None
            → EachInRange k (WasFull k seat.old.me seat.new.me) }
    {
        let groups = groups_in(self.range_len);
        let step = step_of(number, groups);
        let mut group = self.group_of(first);
        for _ in 0..groups {
            match self.look_in_group(seat, group, first) {
                Some(found) => return Some(found),
                None => group = (group + step) % groups,
            }
        }
        None
    }

    // Looks for one in the group, from `first` on, if it is one of its slots, and then before it. A
    // group that counts all its slots has none.
    fn look_in_group(
        &self,
        seat: &mut Seat<Option<OpenFile>, View>,
        group: u32,
        first: u32,
    ) -> Option<u32>
        requires table { seat.old.table_id ≡ self.now.table.shared.table_id }
        requires at { (number : ℕ) × IsAtWork self.now.table.shared.key number seat.old.me }
        requires group { group < groups_in self.now.range_len }
        ensures table { seat.new.table_id ≡ seat.old.table_id }
        ensures places { seat.new.me.1 ≡ seat.old.me.1 }
        ensures looks { LooksFor self.now.table.shared.key (group_steps self.now.range_len)
            seat.old.me result seat.new.me }
        ensures full { let k = self.now.table.shared.key in result ≡ None
            → EachInGroup k group (WasFull k seat.old.me seat.new.me) }
    {
        let word = self.table.shared.load::<Peeking>(seat, group_place(group));
        if counts_all(word, self.range_len, group) {
            return None;
        }
        let begin = self.range_start + group * group_size(self.range_len);
        let end = begin + group_len(self.range_len, group);
        let from = start_within(first, begin, end);
        if let Some(found) = self.look_between(seat, from, end) {
            return Some(found);
        }
        self.look_between(seat, begin, from)
    }

    // Looks for one from `from` to before `to`, in at most one step for each.
    fn look_between(
        &self,
        seat: &mut Seat<Option<OpenFile>, View>,
        from: u32,
        to: u32,
    ) -> Option<u32>
        requires table { seat.old.table_id ≡ self.now.table.shared.table_id }
        requires at { (number : ℕ) × IsAtWork self.now.table.shared.key number seat.old.me }
        requires order { from ≤ to }
        requires range { EachFrom from to (IsInRange self.now.table.shared.key) }
        ensures table { seat.new.table_id ≡ seat.old.table_id }
        ensures places { seat.new.me.1 ≡ seat.old.me.1 }
        ensures looks { LooksFor self.now.table.shared.key (to - from) seat.old.me result
            seat.new.me }
        ensures full { let k = self.now.table.shared.key in result ≡ None
            → EachFrom from to (WasFull k seat.old.me seat.new.me) }
    {
        for slot in from..to {
            if !self.sees_file(seat, slot) {
                return Some(slot);
            }
        }
        None
    }
}
