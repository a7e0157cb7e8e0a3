//! From nothing to a full table: makes a catalogue, fills a table, shares it, replaces a file and
//! closes all files.
ghost use Rattle.std.specs.Prelude.{◌≡◌, ◌<◌, ◌+◌, IfOk, OnOk, length};
ghost use Rattle.fx_plain.specs.Contents.{state_of};
ghost use Rattle.fx_plain.specs.State.{IsSettled};
ghost use Rattle.fx_table.specs.Opening.{size_of};
ghost use Rattle.fx_table.specs.Pass.{IsIdle};

use fx_base::{AddFault, Catalogue, CloseList, Mark, NoMemory, OpenFile};
use fx_counted::CountedTable;
use fx_plain::PlainTable;
use fx_table::FileTable;
use std::alloc::Global;
use std::sync::Wait;

const SLOTS: u32 = 4;

// Adds a file to a catalogue.
fn add(alloc: Global, catalogue: &mut Catalogue, name: &str, bytes: &[u8]) -> Result<(), AddFault>
    ensures { OnOk result (length catalogue.new ≡ length catalogue.old + 1) }
{
    catalogue.add(String::from_str(alloc, name)?, bytes.to_vec(alloc)?)
}

/// Makes a catalogue of two files, whose entries are 0 and 1.
pub fn two_files(alloc: Global) -> Result<Catalogue, AddFault>
    ensures { IfOk result (λ catalogue. length catalogue ≡ 2) }
{
    let mut catalogue = Catalogue::new(alloc);
    add(alloc, &mut catalogue, "old.txt", b"hello")?;
    add(alloc, &mut catalogue, "new.txt", b"world")?;
    Ok(catalogue)
}

// Makes a table with entry 0 at each slot. Only an empty slot takes a file, so `entry_at` looks
// first.
fn full_table(alloc: Global, catalogue: &Catalogue) -> Result<PlainTable, NoMemory>
    requires entry { 0 < length catalogue.now }
    ensures settled { IfOk result (λ plain. IsSettled (state_of plain)) }
    ensures size { IfOk result (λ plain. (state_of plain).size ≡ SLOTS) }
{
    let mut plain = PlainTable::sparse(alloc, SLOTS)?;
    if let Err(refused) = plain.prepare(SLOTS) {
        plain.abandon();
        return Err(refused);
    }
    for slot in 0..SLOTS {
        if plain.entry_at(slot).is_none() {
            plain.put_back(
                slot,
                catalogue.open(0, Mark::Registered { k: 1, i: slot }, 0),
            );
        }
    }
    Ok(plain)
}

/// Puts entry 1 at slot 0. Returns the old file, to be closed, if nobody holds it. Returns `None`
/// and replaces nothing if the pass has no number for a new file and can't draw one.
pub fn replace<T: FileTable, R: Wait>(
    rt: &R,
    catalogue: &Catalogue,
    table: &T,
    pass: &mut T::Pass,
) -> Option<OpenFile>
    requires ready { T.fits table.now pass.old × IsIdle (T.view pass.old) }
    requires slot { 0 < size_of (T.opening table.now) }
    requires entry { 1 < length catalogue.now }
    ensures ready { T.fits table.now pass.new × IsIdle (T.view pass.new) }
{
    if table.numbers_left(pass) == 0 {
        table.draw(pass)?;
    }
    if table.numbers_left(pass) == 0 {
        return None;
    }
    let file = catalogue.open(1, Mark::Registered { k: 1, i: 1 }, 0);
    let removed = table.put(rt, pass, 0, file)?;
    table.retire(rt, pass, removed)
}

// Shares the table for one chain and one pass, which replaces a file, and takes the table back.
fn share<T: FileTable, R: Wait>(
    rt: &R,
    alloc: Global,
    catalogue: &Catalogue,
    plain: PlainTable,
) -> Result<(PlainTable, Option<OpenFile>), NoMemory>
    requires settled { IsSettled (state_of plain) }
    requires slot { 0 < (state_of plain).size }
    requires entry { 1 < length catalogue.now }
    ensures settled { IfOk result (λ (left, _). IsSettled (state_of left)) }
{
    match T::open(alloc, plain, 1, 1) {
        Ok((table, mut passes)) => {
            let Some(mut pass) = passes.pop() else {
                unreachable!()
            };
            let replaced = replace(rt, catalogue, &table, &mut pass);
            passes.push_reserved(pass);
            Ok((table.close(passes), replaced))
        }
        Err((plain, refused)) => {
            plain.abandon();
            Err(refused)
        }
    }
}

// Closes all files of a table, and spends the table. Returns the number of closed files.
fn close_all(alloc: Global, plain: PlainTable) -> Result<u32, NoMemory>
    requires { IsSettled (state_of plain) }
{
    let mut plain = plain;
    match CloseList::with_room(alloc, plain.full()) {
        Ok(mut closes) => {
            plain.empty_into(&mut closes);
            plain.dismiss();
            Ok(closes.len())
        }
        Err(refused) => {
            plain.abandon();
            Err(refused)
        }
    }
}

/// Fills a table, replaces a file and closes all files. Prints the numbers of closed files.
pub fn run<R: Wait + Print>(rt: &R, alloc: Global, catalogue: &Catalogue) -> Result<(), NoMemory>
    requires { 1 < length catalogue.now }
{
    let mut closes = CloseList::with_room(alloc, 1)?;
    let plain = full_table(alloc, catalogue)?;
    let (left, replaced) = share::<CountedTable, R>(rt, alloc, catalogue, plain)?;
    if let Some(file) = replaced {
        closes.close(file);
    }
    let at_end = close_all(alloc, left)?;
    // A line that can't be written changes nothing.
    let _ = println!(rt;
        "closed when replaced: {}, at the end: {at_end}",
        closes.len()
    );
    Ok(())
}
