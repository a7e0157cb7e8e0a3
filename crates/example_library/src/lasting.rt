//! A table that never has to be closed. One thread replaces a file 100,000 times, and another one
//! looks it up 100,000 times.
ghost use Rattle.std.specs.Prelude.{◌≡◌, ◌<◌, All, length};
ghost use Rattle.fx_lasting.specs.Tables.{IsPassOfTable, opening_of_table, view_of};
ghost use Rattle.fx_table.specs.Opening.{size_of};
ghost use Rattle.fx_table.specs.Pass.{IsIdle};

use fx_base::{Catalogue, Mark, NoMemory, OpenFile};
use fx_lasting::{LastingPass, LastingTable};
use fx_table::LookUp;
use std::alloc::Global;
use std::sync::Wait;
use std::sync::atomic::{AtomicU32, Ordering};
use std::thread;
use std::thread::Threads;

const SLOTS: u32 = 4;

const TIMES: u32 = 100_000;

/// Discards a file that a call returned, and counts it. A server would close it.
pub(crate) fn discard(file: Option<OpenFile>, closed: &AtomicU32) {
    if let Some(file) = file {
        file.discard();
        closed.fetch_add(1, Ordering::SeqCst);
    }
}

// Puts a new opening of entry 0 at slot 0. Does nothing if the pass may not install files.
fn replace(catalogue: &Catalogue, table: &LastingTable, pass: &mut LastingPass, closed: &AtomicU32)
    requires ready { IsPassOfTable table.now pass.old × IsIdle (view_of pass.old) }
    requires slot { 0 < size_of (opening_of_table table.now) }
    requires entry { 0 < length catalogue.now }
    ensures ready { IsPassOfTable table.now pass.new × IsIdle (view_of pass.new) }
{
    if table.numbers_left(pass) == 0 {
        return;
    }
    let file = catalogue.open(0, Mark::Registered { k: 1, i: 0 }, 0);
    if let Some(removed) = table.put(pass, 0, file) {
        discard(table.retire(pass, removed), closed);
    }
}

// Looks slot 0 up, and releases the file. Each call may return a removed file that nobody uses.
fn look(table: &LastingTable, pass: &mut LastingPass, closed: &AtomicU32)
    requires ready { IsPassOfTable table.now pass.old × IsIdle (view_of pass.old) }
    requires slot { 0 < size_of (opening_of_table table.now) }
    ensures ready { IsPassOfTable table.now pass.new × IsIdle (view_of pass.new) }
{
    let LookUp { found, freed } = table.look_up(pass, 0);
    discard(freed, closed);
    if let Ok(hold) = found {
        discard(table.release(pass, hold), closed);
    }
}

// Replaces the file `TIMES` times, or looks it up `TIMES` times.
fn work(
    catalogue: &Catalogue,
    table: &LastingTable,
    pass: &mut LastingPass,
    replaces: bool,
    closed: &AtomicU32,
)
    requires ready { IsPassOfTable table.now pass.old × IsIdle (view_of pass.old) }
    requires slot { 0 < size_of (opening_of_table table.now) }
    requires entry { 0 < length catalogue.now }
    ensures ready { IsPassOfTable table.now pass.new × IsIdle (view_of pass.new) }
{
    for _ in 0..TIMES {
        if replaces {
            replace(catalogue, table, pass, closed);
        } else {
            look(table, pass, closed);
        }
    }
}

// Runs each pass in a thread of its own, and waits for both threads. The first thread replaces.
fn run_both<R: Threads + Wait + Sync>(
    rt: &R,
    catalogue: &Catalogue,
    table: &LastingTable,
    passes: &mut Vec<LastingPass>,
    closed: &AtomicU32,
)
    requires ready { All (λ p. IsPassOfTable table.now p × IsIdle (view_of p)) passes.old.items }
    requires slot { 0 < size_of (opening_of_table table.now) }
    requires entry { 0 < length catalogue.now }
    ensures ready { All (λ p. IsPassOfTable table.now p × IsIdle (view_of p)) passes.new.items }
    ensures count { length passes.new.items ≡ length passes.old.items }
{
    thread::for_each_mut(
        rt,
        passes.as_mut_slice(),
        2,
        &|i, pass: &mut LastingPass|
            requires { IsPassOfTable table.now pass.old × IsIdle (view_of pass.old)
                × (0 < size_of (opening_of_table table.now)) × (0 < length catalogue.now) }
            ensures { IsPassOfTable table.entry.now pass.new × IsIdle (view_of pass.new) }
        { work(catalogue, table, pass, i == 0, closed) },
    );
}

/// Discards the files that the closed table had, and returns their number. A server would close
/// them.
pub(crate) fn discard_all(mut left: Vec<(u32, OpenFile)>) -> usize {
    let count = left.len();
    while let Some((_slot, file)) = left.pop() {
        file.discard();
    }
    left.destroy_empty();
    count
}

// Shares a table of empty slots between two passes. The first pass may install files. Returns the
// number of files that were left at the end. The list for them is allocated first, so that the
// close can't fail.
fn share<R: Threads + Wait + Sync>(
    rt: &R,
    alloc: Global,
    catalogue: &Catalogue,
    closed: &AtomicU32,
) -> Result<usize, NoMemory>
    requires entry { 0 < length catalogue.now }
{
    let room = Vec::with_capacity(alloc, SLOTS as usize)?;
    match LastingTable::open_sparse(alloc, SLOTS, (0, SLOTS), 2, 1) {
        Ok((table, mut passes)) => {
            run_both(rt, catalogue, &table, &mut passes, closed);
            Ok(discard_all(table.close(passes, room)))
        }
        Err(refused) => {
            room.destroy_empty();
            Err(refused)
        }
    }
}

/// Shares a table, and prints how many files its calls returned, and how many were left.
///
/// # Errors
/// `NoMemory` if an allocation fails.
pub fn replace_while_looked_up<R: Threads + Wait + Print + Sync>(
    rt: &R,
    alloc: Global,
    catalogue: &Catalogue,
) -> Result<(), NoMemory>
    requires { 0 < length catalogue.now }
{
    let closed = AtomicU32::new(0);
    let at_end = share(rt, alloc, catalogue, &closed)?;
    let by_threads = closed.load(Ordering::SeqCst);
    // A line that can't be written changes nothing.
    let _ = println!(rt; "closed by the threads: {by_threads}, at the end: {at_end}");
    Ok(())
}
