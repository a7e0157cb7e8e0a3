//! The search for an empty slot of the allocation range.
ghost use Rattle.std.specs.Prelude.{◌≡◌, ◌+◌, ◌-◌, ◌*◌, ◌<◌, ◌≤◌, None};
ghost use Rattle.fx_lasting.specs.Words.{ℕ, true, false, IfSome, IfErr, IsIdle, groups_in, MOST_GROUPS, MOST_PASSES, Outside};
ghost use Rattle.fx_lasting.specs.AtWork.{IsAtWork};
ghost use Rattle.fx_lasting.specs.Laws.{IsInRange};
ghost use Rattle.fx_lasting.specs.range.Questions.{HasAsked};
ghost use Rattle.fx_lasting.specs.Tables.{view_of, steps_taken, MeetsMore, opening_of_table, IsPassOfTable};
ghost use Rattle.fx_lasting.specs.slots.AtEmpty.{FailsToFill, FellShort, GivesUpFor};
ghost use Rattle.fx_lasting.specs.range.Tries.{IsPlacing, Tries, HasAllocated, StillPlaces, TriedSo, without_asking, group_steps, scan_steps};
ghost use Rattle.fx_lasting.specs.range.Scans.{LeadsToAll, EachFrom, EachInGroup, EachInRange};

use crate::fields::{file_word, is_full, node_named};
use crate::kinds::{Exchanging, Peeking, Seeing};
use crate::life::layout::slot_place;
use crate::pass::LastingPass;
use crate::table::LastingTable;
use crate::tried::TriedPut;
use crate::view::View;
use atomic_table::Seat;
use fx_base::{Closed, OpenFile};
use table_range::{counts_all, group_len, group_place, group_size, groups_in};

// The steps by which passes go from group to group. Each is a prime above MOST_GROUPS, so it leads
// to all groups, whatever their number. Passes that find the same groups full have different steps,
// and so they reach different groups that aren't full.
const STEPS: [u32; 8] = [67, 71, 73, 79, 83, 89, 97, 101];

impl LastingTable {
    /// Tries once to install a file at an empty slot of the allocation range, under a number that
    /// no file has had, for an idle pass (`is_idle`) that installs files (`numbers_left`)
    /// (io_uring_prep_openat(3), "IORING_FILE_INDEX_ALLOC"). It never waits: it makes at most three
    /// atomic steps for each slot of a group, two for each group, and eleven more than the table
    /// has passes. It tries the slot that the pass emptied last, or else the one after the slot
    /// that it filled last, and then goes once over the groups that aren't full, from the slot
    /// before that. It returns the slot; or the file, if every slot of the range had a file at one
    /// moment (ENFILE), or if neither was found. Then nothing has changed, and another pass emptied
    /// a slot of the range during the call, changed an empty one, or was in the middle of a call.
    #[inline(always)]
    pub fn try_put_any(&self, pass: &mut LastingPass, file: OpenFile) -> TriedPut
        requires fits { IsPassOfTable self.now pass.old }
        requires idle { IsIdle (view_of pass.old) }
        requires numbers { 0 < (view_of pass.old).numbers_left }
        ensures fits { IsPassOfTable self.now pass.new }
        ensures tried { TriedSo (opening_of_table self.now) (view_of pass.old) file result
            (view_of pass.new) }
        ensures steps { let passes = self.now.passes in let len = self.now.range_len in
            steps_taken pass.new ≤ steps_taken pass.old + (passes + scan_steps len
            + groups_in len + 8) }
        ensures short { GivesUpFor self.now.table.shared.key pass.old result pass.new }
        ensures met { MeetsMore pass.old pass.new }
    {
        if self.is_still_full(pass) {
            return TriedPut::Full(file);
        }
        match self.try_slots(pass, file) {
            Ok(slot) => TriedPut::At(slot),
            Err(back) => {
                if self.is_all_full(pass) {
                    TriedPut::Full(back)
                } else {
                    TriedPut::Again(back)
                }
            }
        }
    }

    // Installs the file at a slot of the range that is empty when the scan reaches it.
    #[inline(always)]
    fn try_slots(&self, pass: &mut LastingPass, file: OpenFile) -> Result<u32, OpenFile>
        requires fits { IsPassOfTable self.now pass.old }
        requires idle { IsIdle (view_of pass.old) }
        requires numbers { 0 < (view_of pass.old).numbers_left }
        ensures fits { IsPassOfTable self.now pass.new }
        ensures tried { TriedSo (opening_of_table self.now) (view_of pass.old) file
            (without_asking result) (view_of pass.new) }
        ensures steps { let passes = self.now.passes in let len = self.now.range_len in
            steps_taken pass.new ≤ steps_taken pass.old + (passes + scan_steps len + 4) }
        ensures met { MeetsMore pass.old pass.new }
        ensures fails { let k = self.now.table.shared.key in IfErr result (λ back.
            EachInRange k (FailsToFill k pass.old.seat.me pass.new.seat.me)) }
    {
        let stock = pass.stock.as_slice();
        let start = pass.next_entry;
        let identity = file.identity();
        let seat = &mut pass.seat;
        let (entry, node, lost) = self.place(seat, pass.number, stock, start, pass.keeps, file);
        pass.next_entry = entry;
        pass.keeps = false;
        let from = pass.emptied.take_last();
        match self.scan(&mut pass.seat, pass.number, node, lost, identity, from) {
            Some((slot, named)) => {
                pass.stock[entry as usize] = named;
                pass.emptied.fill(slot);
                Ok(slot)
            }
            None => Err(self.take_out(&mut pass.seat, node)),
        }
    }

    // Checks whether the pass was sure that the range is full and nobody has cleared its bit since,
    // in at most one step: the range is full now.
    #[inline(always)]
    pub(crate) fn is_still_full(&self, pass: &mut LastingPass) -> bool
        requires fits { IsPassOfTable self.now pass.old }
        requires numbers { 0 < (view_of pass.old).numbers_left }
        ensures { HasAsked self.now 1 pass.old result pass.new }
    {
        if !pass.sure {
            return false;
        }
        pass.sure = self.decide(&mut pass.seat, pass.number);
        pass.sure
    }

    // Asks whether the range is full, in at most three steps more than it has groups.
    #[inline(never)]
    pub(crate) fn is_all_full(&self, pass: &mut LastingPass) -> bool
        requires fits { IsPassOfTable self.now pass.old }
        requires numbers { 0 < (view_of pass.old).numbers_left }
        ensures asked { HasAsked self.now (groups_in self.now.range_len + 3) pass.old result
            pass.new }
        ensures short { result ≡ false → FellShort self.now.table.shared.key pass.old pass.new }
    {
        pass.sure = self.ask(&mut pass.seat, pass.number);
        pass.sure
    }

    // Installs the file at a slot of the range that is empty when the scan reaches it. Returns that
    // slot, and the node that it named while it was empty. The scan begins at `from`, if that is in
    // the range, and goes once over the groups that aren't full, by the step of its pass.
    #[inline(always)]
    fn scan(
        &self,
        seat: &mut Seat<Option<OpenFile>, View>,
        number: u32,
        node: u32,
        lost: u64,
        file: Closed,
        from: u32,
    ) -> Option<(u32, u32)>
        requires table { seat.old.table_id ≡ self.now.table.shared.table_id }
        requires at { IsAtWork self.now.table.shared.key number seat.old.me }
        requires placing { IsPlacing node lost file seat.old.me }
        requires change { seat.old.me.0.change ≡ Outside }
        ensures table { seat.new.table_id ≡ seat.old.table_id }
        ensures slot { IfSome result (λ (slot, _). slot < self.now.size) }
        ensures found { IfSome result (λ (slot, named).
            HasAllocated node file slot named (scan_steps self.now.range_len) seat.old.me
            seat.new.me) }
        ensures none { result ≡ None
            → StillPlaces node lost file (scan_steps self.now.range_len) seat.old.me seat.new.me }
        ensures fails { let k = self.now.table.shared.key in result ≡ None
            → EachInRange k (FailsToFill k seat.old.me seat.new.me) }
    {
        if self.range_len == 0 {
            return None;
        }
        let first = self.first_slot(from, number);
        if let Some(named) = self.try_slot(seat, node, lost, file, first) {
            return Some((first, named));
        }
        let start = self.scan_start(first, from);
        self.scan_groups(seat, number, node, lost, file, start)
    }

    // Tries the slots of the range group by group, from the slot `first` on.
    #[inline(always)]
    fn scan_groups(
        &self,
        seat: &mut Seat<Option<OpenFile>, View>,
        number: u32,
        node: u32,
        lost: u64,
        file: Closed,
        first: u32,
    ) -> Option<(u32, u32)>
        requires table { seat.old.table_id ≡ self.now.table.shared.table_id }
        requires at { IsAtWork self.now.table.shared.key number seat.old.me }
        requires placing { IsPlacing node lost file seat.old.me }
        requires change { seat.old.me.0.change ≡ Outside }
        requires first { IsInRange self.now.table.shared.key first }
        ensures table { seat.new.table_id ≡ seat.old.table_id }
        ensures slot { IfSome result (λ (slot, _). slot < self.now.size) }
        ensures found { let len = self.now.range_len in IfSome result (λ (slot, named).
            HasAllocated node file slot named (groups_in len * group_steps len) seat.old.me
            seat.new.me) }
        ensures none { let len = self.now.range_len in result ≡ None
            → StillPlaces node lost file (groups_in len * group_steps len) seat.old.me
            seat.new.me }
        ensures fails { let k = self.now.table.shared.key in result ≡ None
            → EachInRange k (FailsToFill k seat.old.me seat.new.me) }
    {
        let groups = groups_in(self.range_len);
        let step = step_of(number, groups);
        let mut group = self.group_of(first);
        for _ in 0..groups {
            match self.try_group(seat, node, lost, file, group, first) {
                Some(found) => return Some(found),
                None => group = (group + step) % groups,
            }
        }
        None
    }

    // Installs the file at an empty slot of the group, and returns that slot and the node that it
    // named. A group that counts all its slots has none. The slots are tried from `first` on, if it
    // is one of them, and then those before it: passes that begin in one group meet less.
    fn try_group(
        &self,
        seat: &mut Seat<Option<OpenFile>, View>,
        node: u32,
        lost: u64,
        file: Closed,
        group: u32,
        first: u32,
    ) -> Option<(u32, u32)>
        requires table { seat.old.table_id ≡ self.now.table.shared.table_id }
        requires at { (number : ℕ) × IsAtWork self.now.table.shared.key number seat.old.me }
        requires placing { IsPlacing node lost file seat.old.me }
        requires change { seat.old.me.0.change ≡ Outside }
        requires group { group < groups_in self.now.range_len }
        ensures table { seat.new.table_id ≡ seat.old.table_id }
        ensures slot { IfSome result (λ (slot, _). slot < self.now.size) }
        ensures found { IfSome result (λ (slot, named).
            HasAllocated node file slot named (group_steps self.now.range_len) seat.old.me
            seat.new.me) }
        ensures none { result ≡ None
            → StillPlaces node lost file (group_steps self.now.range_len) seat.old.me seat.new.me }
        ensures fails { let k = self.now.table.shared.key in result ≡ None
            → EachInGroup k group (FailsToFill k seat.old.me seat.new.me) }
    {
        let word = self.table.shared.load::<Peeking>(seat, group_place(group));
        if counts_all(word, self.range_len, group) {
            return None;
        }
        let begin = self.range_start + group * group_size(self.range_len);
        let end = begin + group_len(self.range_len, group);
        let from = start_within(first, begin, end);
        if let Some(found) = self.try_between(seat, node, lost, file, from, end) {
            return Some(found);
        }
        self.try_between(seat, node, lost, file, begin, from)
    }

    // Installs the file at an empty slot from `from` to before `to`, in at most three steps for
    // each, and returns that slot and the node that it named.
    fn try_between(
        &self,
        seat: &mut Seat<Option<OpenFile>, View>,
        node: u32,
        lost: u64,
        file: Closed,
        from: u32,
        to: u32,
    ) -> Option<(u32, u32)>
        requires table { seat.old.table_id ≡ self.now.table.shared.table_id }
        requires at { (number : ℕ) × IsAtWork self.now.table.shared.key number seat.old.me }
        requires placing { IsPlacing node lost file seat.old.me }
        requires change { seat.old.me.0.change ≡ Outside }
        requires order { from ≤ to }
        requires range { EachFrom from to (IsInRange self.now.table.shared.key) }
        ensures table { seat.new.table_id ≡ seat.old.table_id }
        ensures slot { IfSome result (λ (slot, _). slot < self.now.size) }
        ensures found { IfSome result (λ (slot, named).
            HasAllocated node file slot named (3 * (to - from)) seat.old.me seat.new.me) }
        ensures none { result ≡ None
            → StillPlaces node lost file (3 * (to - from)) seat.old.me seat.new.me }
        ensures fails { let k = self.now.table.shared.key in result ≡ None
            → EachFrom from to (FailsToFill k seat.old.me seat.new.me) }
    {
        for slot in from..to {
            if let Some(named) = self.try_slot(seat, node, lost, file, slot) {
                return Some((slot, named));
            }
        }
        None
    }

    // Returns `from` if it is a slot of the range. A pass that has filled no slot begins at a group
    // of its own, from the last one down: the first slots of a range are often full.
    pub(crate) fn first_slot(&self, from: u32, number: u32) -> u32
        requires some { 0 < self.now.range_len }
        requires number { number ≤ MOST_PASSES }
        ensures { IsInRange self.now.table.shared.key result }
    {
        if self.range_start <= from && from - self.range_start < self.range_len {
            from
        } else {
            let groups = groups_in(self.range_len);
            let group = (groups - number % groups) % groups;
            self.range_start + group * group_size(self.range_len)
        }
    }

    // Returns the slot from which a scan goes over the groups: the one before `first`, which the
    // pass filled last and another may have emptied. If the pass begins at a group of its own, and
    // not at `from`, it goes on there: the slot before is in another's group.
    pub(crate) fn scan_start(&self, first: u32, from: u32) -> u32
        requires { IsInRange self.now.table.shared.key first }
        ensures { IsInRange self.now.table.shared.key result }
    {
        if first == from && self.range_start < first {
            first - 1
        } else {
            first
        }
    }

    // Tries to install the file at the slot, in at most three steps. If the slot was empty and now
    // has the file, it returns the node that the slot named before.
    pub(crate) fn try_slot(
        &self,
        seat: &mut Seat<Option<OpenFile>, View>,
        node: u32,
        lost: u64,
        file: Closed,
        slot: u32,
    ) -> Option<u32>
        requires table { seat.old.table_id ≡ self.now.table.shared.table_id }
        requires at { (number : ℕ) × IsAtWork self.now.table.shared.key number seat.old.me }
        requires placing { IsPlacing node lost file seat.old.me }
        requires change { seat.old.me.0.change ≡ Outside }
        requires range { IsInRange self.now.table.shared.key slot }
        ensures table { seat.new.table_id ≡ seat.old.table_id }
        ensures tries { Tries node lost file slot seat.old.me result seat.new.me }
        ensures fails { result ≡ None
            → FailsToFill self.now.table.shared.key seat.old.me seat.new.me slot }
    {
        let shared = &self.table.shared;
        let place = slot_place(slot);
        let old = shared.load::<Seeing>(seat, place);
        if is_full(old) {
            return None;
        }
        let new = file_word(node, file.entry) + lost;
        let found = shared.compare_exchange::<Exchanging>(seat, place, old, new);
        if found != old {
            return None;
        }
        let named = node_named(old);
        self.raise(seat, slot, true, true);
        Some(named)
    }
}

// Returns the step by which a pass goes from group to group, of `groups` groups.
pub(crate) fn step_of(number: u32, groups: u32) -> u32
    requires some { 0 < groups }
    requires few { groups ≤ MOST_GROUPS }
    ensures inside { result < groups }
    ensures all { LeadsToAll groups result }
{
    STEPS[(number % 8) as usize] % groups
}

// Returns the first slot to try of those from `begin` to before `end`: it is `first`, if that is
// one of them.
pub(crate) fn start_within(first: u32, begin: u32, end: u32) -> u32
    requires { begin ≤ end }
    ensures low { begin ≤ result }
    ensures high { result ≤ end }
{
    if begin <= first && first < end {
        first
    } else {
        begin
    }
}
