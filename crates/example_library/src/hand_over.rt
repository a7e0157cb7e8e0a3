//! One thread hands a file over to another: it puts the file at a slot, and the other thread looks
//! the slot up once the first thread is done. By the clause `found` of `hand_over` the other thread
//! finds that file, unless an action between the two changed the slot.
ghost use Rattle.std.specs.Prelude.{◌≡◌, ◌<◌, ◌≤◌, ◌+◌, length, All};
ghost use Rattle.fx_lasting.specs.Tables.{IsPassOfTable, opening_of_table, view_of};
ghost use Rattle.fx_lasting.specs.life.Showing.{IsSeenOf, shown_of};
ghost use Rattle.fx_table.specs.Opening.{size_of};
ghost use Rattle.fx_table.specs.Pass.{IsIdle};
ghost use Rattle.example_library.specs.HandOver.{HasPut, FindsThePut};

use crate::closes::{close_all, close_returned};
use fx_base::{Catalogue, CloseList, Mark, NoMemory, OpenFile};
use fx_lasting::{LastingPass, LastingSeen, LastingTable};
use fx_table::LookUp;
use std::alloc::Global;
use std::sync::Wait;
use std::thread::{Threads, join_mut};

// Puts a file at a slot, and shows what the pass has seen by then. Returns the file that was
// replaced, if nobody uses it.
fn put_and_show(
    catalogue: &Catalogue,
    table: &LastingTable,
    pass: &mut LastingPass,
    slot: u32,
    entry: u8,
) -> (LastingSeen, Option<OpenFile>)
    requires ready { IsPassOfTable table.now pass.old × IsIdle (view_of pass.old) }
    requires slot { slot < size_of (opening_of_table table.now) }
    requires entry { entry < length catalogue.now }
    requires numbers { 0 < (view_of pass.old).numbers_left }
    ensures ready { IsPassOfTable table.now pass.new × IsIdle (view_of pass.new) }
    ensures here { IsSeenOf table.now result.0 }
    ensures put { HasPut slot entry (shown_of result.0) }
{
    let file = catalogue.open(entry, Mark::Registered { k: 1, i: slot }, 0);
    let removed = table.put(pass, slot, file);
    let seen = table.show(pass);
    let Some(removed) = removed else {
        return (seen, None);
    };
    (seen, table.retire(pass, removed))
}

// Looks a slot up after what was shown, and returns the entry that it finds.
fn find(
    table: &LastingTable,
    pass: &mut LastingPass,
    slot: u32,
    entry: u8,
    seen: &LastingSeen,
    closes: &mut CloseList,
) -> Option<u8>
    requires ready { IsPassOfTable table.now pass.old × IsIdle (view_of pass.old) }
    requires slot { slot < size_of (opening_of_table table.now) }
    requires here { IsSeenOf table.now seen.now }
    requires put { HasPut slot entry (shown_of seen.now) }
    requires room { 2 ≤ closes.old.room }
    ensures ready { IsPassOfTable table.now pass.new × IsIdle (view_of pass.new) }
    ensures found { FindsThePut slot entry result (view_of pass.new).front }
{
    let LookUp { found, freed } = table.look_up_after(pass, slot, seen);
    close_returned(freed, closes);
    let Ok(hold) = found else {
        return None;
    };
    let entry = hold.entry;
    close_returned(table.release(pass, hold), closes);
    Some(entry)
}

/// Puts a file of an entry at a slot, in a thread of its own, and looks the slot up by another pass
/// once that thread is done. Returns the entry that the other pass finds, or `None` if the slot has
/// no file. It is the entry that was put, unless an action between changed the slot.
pub fn hand_over<R: Threads + Wait + Sync>(
    rt: &R,
    catalogue: &Catalogue,
    table: &LastingTable,
    first: &mut LastingPass,
    second: &mut LastingPass,
    slot: u32,
    entry: u8,
    closes: &mut CloseList,
) -> Option<u8>
    requires first { IsPassOfTable table.now first.old × IsIdle (view_of first.old) }
    requires second { IsPassOfTable table.now second.old × IsIdle (view_of second.old) }
    requires slot { slot < size_of (opening_of_table table.now) }
    requires entry { entry < length catalogue.now }
    requires numbers { 0 < (view_of first.old).numbers_left }
    requires room { 3 ≤ closes.old.room }
    ensures first { IsPassOfTable table.now first.new × IsIdle (view_of first.new) }
    ensures second { IsPassOfTable table.now second.new × IsIdle (view_of second.new) }
    ensures found { FindsThePut slot entry result (view_of second.new).front }
{
    let ((seen, replaced), ()) = join_mut(
        rt,
        &mut || -> (LastingSeen, Option<OpenFile>)
            requires { IsPassOfTable table.now first.now × IsIdle (view_of first.now)
                × (slot < size_of (opening_of_table table.now)) × (entry < length catalogue.now)
                × (0 < (view_of first.now).numbers_left) }
            ensures { IsPassOfTable table.entry.now first.exit.now × IsIdle (view_of first.exit.now)
                × IsSeenOf table.entry.now result.0 × HasPut slot entry (shown_of result.0) }
        { put_and_show(catalogue, table, first, slot, entry) },
        &mut || (),
    );
    close_returned(replaced, closes);
    find(table, second, slot, entry, &seen, closes)
}

// Hands entry 1 over at slot 0, if the first pass may install files.
fn try_hand_over<R: Threads + Wait + Sync>(
    rt: &R,
    catalogue: &Catalogue,
    table: &LastingTable,
    first: &mut LastingPass,
    second: &mut LastingPass,
    closes: &mut CloseList,
) -> Option<u8>
    requires first { IsPassOfTable table.now first.old × IsIdle (view_of first.old) }
    requires second { IsPassOfTable table.now second.old × IsIdle (view_of second.old) }
    requires slot { 0 < size_of (opening_of_table table.now) }
    requires entry { 1 < length catalogue.now }
    requires room { 3 ≤ closes.old.room }
    ensures first { IsPassOfTable table.now first.new × IsIdle (view_of first.new) }
    ensures second { IsPassOfTable table.now second.new × IsIdle (view_of second.new) }
{
    if table.numbers_left(first) == 0 {
        return None;
    }
    hand_over(rt, catalogue, table, first, second, 0, 1, closes)
}

// Hands entry 1 over between the two passes of a list.
fn hand_over_between<R: Threads + Wait + Sync>(
    rt: &R,
    catalogue: &Catalogue,
    table: &LastingTable,
    passes: &mut Vec<LastingPass>,
    closes: &mut CloseList,
) -> Option<u8>
    requires two { length passes.old.items ≡ 2 }
    requires ready { All (λ p. IsPassOfTable table.now p × IsIdle (view_of p)) passes.old.items }
    requires slot { 0 < size_of (opening_of_table table.now) }
    requires entry { 1 < length catalogue.now }
    requires room { 3 ≤ closes.old.room }
    ensures two { length passes.new.items ≡ 2 }
    ensures ready { All (λ p. IsPassOfTable table.now p × IsIdle (view_of p)) passes.new.items }
{
    let mut second = passes.pop().unwrap();
    let mut first = passes.pop().unwrap();
    let found = try_hand_over(rt, catalogue, table, &mut first, &mut second, closes);
    passes.push_reserved(first);
    passes.push_reserved(second);
    found
}

/// Opens a table of one slot for two passes, hands entry 1 over from one thread to another, and
/// closes the table. Returns the entry that the other thread found.
///
/// # Errors
/// `NoMemory` if an allocation fails.
pub fn hand_over_once<R: Threads + Wait + Sync>(
    rt: &R,
    alloc: Global,
    catalogue: &Catalogue,
) -> Result<Option<u8>, NoMemory>
    requires entry { 1 < length catalogue.now }
{
    let mut closes = CloseList::with_room(alloc, 3)?;
    let mut at_end = CloseList::with_room(alloc, 1)?;
    let room = Vec::with_capacity(alloc, 1)?;
    match LastingTable::open_sparse(alloc, 1, (0, 1), 2, 2) {
        Ok((table, mut passes)) => {
            let found = hand_over_between(rt, catalogue, &table, &mut passes, &mut closes);
            close_all(table.close(passes, room), &mut at_end);
            Ok(found)
        }
        Err(refused) => {
            room.destroy_empty();
            Err(refused)
        }
    }
}
