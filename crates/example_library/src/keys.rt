//! A server that names a file by its key. Once the file is removed, the key finds nothing, even if
//! another file is at its slot.
ghost use Rattle.std.specs.Prelude.{◌≡◌, ◌<◌, All, length};
ghost use Rattle.fx_lasting.specs.Tables.{IsPassOfTable, view_of};
ghost use Rattle.fx_table.specs.Pass.{IsIdle};

use crate::lasting::{discard, discard_all};
use fx_base::{Catalogue, Mark, NoMemory};
use fx_lasting::{
    Key, KeyFault, KeyLook, KeyPut, KeyTaken, LastingPass, LastingTable, PutOverKey, TriedPut,
};
use std::alloc::Global;
use std::fmt::Debug;
use std::sync::atomic::{AtomicU32, Ordering};

// Opens entry 0 with a mark of its own, and puts the file at any slot. Returns the key in 64 bits.
// Returns `None` if the pass may not install files, no empty slot is found, or the key has more
// bits.
fn publish(
    catalogue: &Catalogue,
    table: &LastingTable,
    pass: &mut LastingPass,
    i: u32,
) -> Option<u64>
    requires ready { IsPassOfTable table.now pass.old × IsIdle (view_of pass.old) }
    requires entry { 0 < length catalogue.now }
    ensures ready { IsPassOfTable table.now pass.new × IsIdle (view_of pass.new) }
{
    if table.numbers_left(pass) == 0 {
        return None;
    }
    let mark = Mark::Registered { k: 1, i };
    match table.try_put_any(pass, catalogue.open(0, mark, 0)) {
        TriedPut::At(slot) => Key::new(slot, mark).to_bits(),
        TriedPut::Full(file) | TriedPut::Again(file) => {
            file.discard();
            None
        }
    }
}

// Looks up the file of a key, and releases it. Returns its entry.
fn find(
    table: &LastingTable,
    pass: &mut LastingPass,
    bits: u64,
    closed: &AtomicU32,
) -> Result<u8, KeyFault>
    requires ready { IsPassOfTable table.now pass.old × IsIdle (view_of pass.old) }
    ensures ready { IsPassOfTable table.now pass.new × IsIdle (view_of pass.new) }
{
    let KeyLook {
        found,
        freed,
        released,
    } = table.look_key(pass, Key::from_bits(bits));
    discard(freed, closed);
    discard(released, closed);
    let hold = found?;
    let entry = hold.entry;
    discard(table.release(pass, hold), closed);
    Ok(entry)
}

// Removes the file of a key, and retires it.
fn remove(
    table: &LastingTable,
    pass: &mut LastingPass,
    bits: u64,
    closed: &AtomicU32,
) -> Result<(), KeyFault>
    requires ready { IsPassOfTable table.now pass.old × IsIdle (view_of pass.old) }
    ensures ready { IsPassOfTable table.now pass.new × IsIdle (view_of pass.new) }
{
    let KeyTaken {
        taken,
        freed,
        released,
    } = table.take_key(pass, Key::from_bits(bits));
    discard(freed, closed);
    discard(released, closed);
    let removed = taken?;
    discard(table.retire(pass, removed), closed);
    Ok(())
}

// Puts a file over that of a key, and retires the old file. Returns `None` if the pass may not
// install files.
fn put_over(
    catalogue: &Catalogue,
    table: &LastingTable,
    pass: &mut LastingPass,
    bits: u64,
    i: u32,
    closed: &AtomicU32,
) -> Option<Result<(), KeyFault>>
    requires ready { IsPassOfTable table.now pass.old × IsIdle (view_of pass.old) }
    requires entry { 0 < length catalogue.now }
    ensures ready { IsPassOfTable table.now pass.new × IsIdle (view_of pass.new) }
{
    if table.numbers_left(pass) == 0 {
        return None;
    }
    let file = catalogue.open(0, Mark::Registered { k: 1, i }, 0);
    let KeyPut {
        put,
        freed,
        released,
    } = table.put_over_key(pass, Key::from_bits(bits), file);
    discard(freed, closed);
    discard(released, closed);
    match put {
        PutOverKey::Replaced(old) => {
            discard(table.retire(pass, old), closed);
            Some(Ok(()))
        }
        PutOverKey::Missed(fault, file) => {
            file.discard();
            Some(Err(fault))
        }
    }
}

// Puts a file at slot 0, whatever the slot has, and retires the file that was there. Returns the
// new file's key, or `None` if the pass may not install files or the table has no slot.
fn put_at_first(
    catalogue: &Catalogue,
    table: &LastingTable,
    pass: &mut LastingPass,
    i: u32,
    closed: &AtomicU32,
) -> Option<Key>
    requires ready { IsPassOfTable table.now pass.old × IsIdle (view_of pass.old) }
    requires entry { 0 < length catalogue.now }
    ensures ready { IsPassOfTable table.now pass.new × IsIdle (view_of pass.new) }
{
    if table.numbers_left(pass) == 0 || table.size() == 0 {
        return None;
    }
    let mark = Mark::Registered { k: 1, i };
    if let Some(old) = table.put(pass, 0, catalogue.open(0, mark, 0)) {
        discard(table.retire(pass, old), closed);
    }
    Some(Key::new(0, mark))
}

// Prints a key, and its 64 bits.
fn print_key<R: Print>(rt: &R, bits: u64) {
    let key = Key::from_bits(bits);
    let _ = println!(rt; "put: {key:?}, in 64 bits {bits}");
}

// Prints what a call returned, and the number of files that were closed so far.
fn print_closed<R: Print, A: Debug>(rt: &R, call: &str, answer: &A, closed: &AtomicU32) {
    let count = closed.load(Ordering::SeqCst);
    let _ = println!(rt; "{call}: {answer:?}, files closed: {count}");
}

// Puts a file, removes it by its key, and puts another file at its slot. Prints what the other pass
// finds by the keys. Stops early if a file can't be put.
fn use_keys<R: Print>(
    rt: &R,
    catalogue: &Catalogue,
    table: &LastingTable,
    finder: &mut LastingPass,
    pass: &mut LastingPass,
) -> Option<()>
    requires finder { IsPassOfTable table.now finder.old × IsIdle (view_of finder.old) }
    requires pass { IsPassOfTable table.now pass.old × IsIdle (view_of pass.old) }
    requires entry { 0 < length catalogue.now }
    ensures finder { IsPassOfTable table.now finder.new × IsIdle (view_of finder.new) }
    ensures pass { IsPassOfTable table.now pass.new × IsIdle (view_of pass.new) }
{
    let closed = AtomicU32::new(0);
    let old = publish(catalogue, table, pass, 1)?;
    print_key(rt, old);
    let found = find(table, finder, old, &closed);
    let _ = println!(rt; "looked up by the key: {found:?}");
    let removed = remove(table, pass, old, &closed);
    print_closed(rt, "removed by the key", &removed, &closed);
    let new = publish(catalogue, table, pass, 2)?;
    print_key(rt, new);
    let stale = find(table, finder, old, &closed);
    let found = find(table, finder, new, &closed);
    let _ = println!(rt; "looked up by the old key: {stale:?}, by the new key: {found:?}");
    replace_by_key(rt, catalogue, table, pass, new)
}

// Replaces the file of a key twice, by the key and by its slot. Prints what the calls return. Stops
// early if a file can't be put.
fn replace_by_key<R: Print>(
    rt: &R,
    catalogue: &Catalogue,
    table: &LastingTable,
    pass: &mut LastingPass,
    bits: u64,
) -> Option<()>
    requires ready { IsPassOfTable table.now pass.old × IsIdle (view_of pass.old) }
    requires entry { 0 < length catalogue.now }
    ensures ready { IsPassOfTable table.now pass.new × IsIdle (view_of pass.new) }
{
    let closed = AtomicU32::new(0);
    let replaced = put_over(catalogue, table, pass, bits, 3, &closed)?;
    print_closed(rt, "replaced by the key", &replaced, &closed);
    let again = put_over(catalogue, table, pass, bits, 4, &closed)?;
    let _ = println!(rt; "replaced by the same key again: {again:?}");
    let key = put_at_first(catalogue, table, pass, 5, &closed)?;
    print_closed(rt, "put at the slot", &key, &closed);
    Some(())
}

// Uses keys by the two passes of a list, the first of which may install files.
fn use_keys_between<R: Print>(
    rt: &R,
    catalogue: &Catalogue,
    table: &LastingTable,
    passes: &mut Vec<LastingPass>,
)
    requires two { length passes.old.items ≡ 2 }
    requires ready { All (λ p. IsPassOfTable table.now p × IsIdle (view_of p)) passes.old.items }
    requires entry { 0 < length catalogue.now }
    ensures two { length passes.new.items ≡ 2 }
    ensures ready { All (λ p. IsPassOfTable table.now p × IsIdle (view_of p)) passes.new.items }
{
    let mut finder = passes.pop().unwrap();
    let mut pass = passes.pop().unwrap();
    use_keys(rt, catalogue, table, &mut finder, &mut pass);
    passes.push_reserved(pass);
    passes.push_reserved(finder);
}

/// Opens a table of one slot for two passes, the first of which may install files, and uses keys.
/// Prints the number of files that were left at the end.
///
/// # Errors
/// `NoMemory` if an allocation fails.
pub fn share_by_key<R: Print>(rt: &R, alloc: Global, catalogue: &Catalogue) -> Result<(), NoMemory>
    requires entry { 0 < length catalogue.now }
{
    let room = Vec::with_capacity(alloc, 1)?;
    match LastingTable::open_sparse(alloc, 1, (0, 1), 2, 1) {
        Ok((table, mut passes)) => {
            use_keys_between(rt, catalogue, &table, &mut passes);
            let left = discard_all(table.close(passes, room));
            let _ = println!(rt; "files left under keys: {left}");
            Ok(())
        }
        Err(refused) => {
            room.destroy_empty();
            Err(refused)
        }
    }
}
