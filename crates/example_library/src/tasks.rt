//! Two threads share a table, and do three things that a server does: they learn by a tag that a
//! file is closed, open files until the table is full, and replace a file under load.
ghost use Rattle.std.specs.Prelude.{◌<◌, ◌≡◌, All, IfOk, length};
ghost use Rattle.std.specs.Thread.{IsSync};
ghost use Rattle.fx_table.specs.Opening.{size_of};
ghost use Rattle.fx_table.specs.Pass.{IsIdle};

use crate::closes::close_returned;
use crate::first::replace;
use fx_base::{Catalogue, CloseList, Mark, NoMemory, OpenFile};
use fx_counted::CountedTable;
use fx_plain::PlainTable;
use fx_table::FileTable;
use std::alloc::Global;
use std::sync::Wait;
use std::sync::atomic::{AtomicU32, Ordering};
use std::thread;
use std::thread::{Threads, join_mut};

// Reads the first five bytes of an entry, or fewer if the entry is shorter. Returns their number.
fn read(alloc: Global, catalogue: &Catalogue, entry: u8) -> Result<u32, NoMemory> {
    let mut bytes = Vec::with_capacity(alloc, 5)?;
    Ok(catalogue.read_into(entry, 0, 5, &mut bytes))
}

// Reads the file at slot 0 in one thread, and meanwhile replaces it in another. The reader is the
// last user, so the reader closes the file, and learns that by the tag which its list of closes
// returns. Returns the number of bytes that were read, or `None` if the slot is empty.
fn read_while_replaced<T: FileTable, R: Threads + Wait + Sync>(
    rt: &R,
    alloc: Global,
    catalogue: &Catalogue,
    table: &T,
    reader: &mut T::Pass,
    writer: &mut T::Pass,
    by_reader: &mut CloseList,
    by_writer: &mut CloseList,
) -> Result<Option<u32>, NoMemory>
    requires slot { 0 < size_of (T.opening table.now) }
    requires entry { 1 < length catalogue.now }
    requires reader { T.fits table.now reader.old × IsIdle (T.view reader.old) }
    requires writer { T.fits table.now writer.old × IsIdle (T.view writer.old) }
    requires room { (0 < by_reader.old.room) × (0 < by_writer.old.room) }
    ensures reader { T.fits table.now reader.new × IsIdle (T.view reader.new) }
    ensures writer { T.fits table.now writer.new × IsIdle (T.view writer.new) }
{
    let Ok(hold) = table.look(rt, reader, 0) else {
        return Ok(None);
    };
    let entry = hold.entry;
    let (count, retired) = join_mut(
        rt,
        &mut || read(alloc, catalogue, entry),
        &mut || -> Option<OpenFile>
            requires { IsSync R.row × T.fits table.now writer.now × IsIdle (T.view writer.now)
                × (0 < size_of (T.opening table.now)) × (1 < length catalogue.now) }
            ensures { T.fits table.entry.now writer.exit.now × IsIdle (T.view writer.exit.now) }
        { replace(rt, catalogue, table, writer) },
    );
    close_returned(table.release(rt, reader, hold), by_reader);
    close_returned(retired, by_writer);
    Ok(Some(count?))
}

// Opens entry 0 of the catalogue at any slot, until every slot of the range is full (`ENFILE`) or
// the chain has no number for a new file left. Returns the number of files that were installed: 0
// if there is no chain left.
fn open_until_full<T: FileTable, R: Wait>(
    rt: &R,
    catalogue: &Catalogue,
    table: &T,
    pass: &mut T::Pass,
) -> u32
    requires ready { T.fits table.now pass.old × IsIdle (T.view pass.old) }
    requires entry { 0 < length catalogue.now }
    ensures ready { T.fits table.now pass.new × IsIdle (T.view pass.new) }
{
    if table.draw(pass).is_none() {
        return 0;
    }
    let left = table.numbers_left(pass);
    for opened in 0..left {
        let file = catalogue.open(0, Mark::Registered { k: 2, i: opened }, 0);
        if let Err(file) = table.put_any(rt, pass, file) {
            file.discard();
            return opened;
        }
    }
    left
}

// The number of times that a thread replaces the file, or reads it.
const TIMES: u32 = 1000;

// Looks the file at slot 0 up, and releases it. Returns the file, to be closed, if it was replaced
// and this was its last user.
fn visit<T: FileTable, R: Wait>(rt: &R, table: &T, pass: &mut T::Pass) -> Option<OpenFile>
    requires ready { T.fits table.now pass.old × IsIdle (T.view pass.old) }
    requires slot { 0 < size_of (T.opening table.now) }
    ensures ready { T.fits table.now pass.new × IsIdle (T.view pass.new) }
{
    let hold = table.look(rt, pass, 0).ok()?;
    table.release(rt, pass, hold)
}

// Replaces the file 1,000 times in the first thread, and reads it 1,000 times in any other.
// Discards the files that come out, which a server would close, and adds their number to `closed`.
fn work<T: FileTable, R: Wait>(
    rt: &R,
    catalogue: &Catalogue,
    table: &T,
    pass: &mut T::Pass,
    is_first: bool,
    closed: &AtomicU32,
)
    requires ready { T.fits table.now pass.old × IsIdle (T.view pass.old) }
    requires slot { 0 < size_of (T.opening table.now) }
    requires entry { 1 < length catalogue.now }
    ensures ready { T.fits table.now pass.new × IsIdle (T.view pass.new) }
{
    for _ in 0..TIMES {
        let out = if is_first {
            replace(rt, catalogue, table, pass)
        } else {
            visit(rt, table, pass)
        };
        if let Some(file) = out {
            file.discard();
            closed.fetch_add(1, Ordering::SeqCst);
        }
    }
}

// Replaces a file 1,000 times while another thread reads it: runs each of two passes in a thread
// of its own, and adds the files that came out to `closed`.
fn replace_under_load<T: FileTable, R: Threads + Wait + Sync>(
    rt: &R,
    catalogue: &Catalogue,
    table: &T,
    passes: &mut Vec<T::Pass>,
    closed: &AtomicU32,
)
    requires ready { All (λ p. T.fits table.now p × IsIdle (T.view p)) passes.old.items }
    requires slot { 0 < size_of (T.opening table.now) }
    requires entry { 1 < length catalogue.now }
    ensures ready { All (λ p. T.fits table.now p × IsIdle (T.view p)) passes.new.items }
    ensures count { length passes.new.items ≡ length passes.old.items }
{
    thread::for_each_mut(
        rt,
        passes.as_mut_slice(),
        2,
        &|i, pass: &mut T::Pass|
            requires { T.fits table.now pass.old × IsIdle (T.view pass.old)
                × (0 < size_of (T.opening table.now)) × (1 < length catalogue.now) }
            ensures { T.fits table.entry.now pass.new × IsIdle (T.view pass.new) }
        { work(rt, catalogue, table, pass, i == 0, closed) },
    );
}

// The tag of the first file at slot 0.
const TAG: u64 = 7;

// The number of chains. Each supplies its pass with numbers for 64 new files.
const CHAINS: u32 = 20;

// Makes a table of four slots, with entry 0 of the catalogue at slot 0, that two threads share,
// each by a pass.
fn shared_table<T: FileTable>(
    alloc: Global,
    catalogue: &Catalogue,
) -> Result<(T, Vec<T::Pass>), NoMemory>
    requires entry { 0 < length catalogue.now }
    ensures slots { IfOk result (λ (table, _). size_of (T.opening table) ≡ 4) }
    ensures asked { IfOk result (λ (table, _). (T.opening table).passes ≡ 2) }
    ensures count { IfOk result (λ (_, passes). length passes.items ≡ 2) }
    ensures ready { IfOk result (λ (table, passes).
        All (λ p. T.fits table p × IsIdle (T.view p)) passes.items) }
{
    let mut plain = PlainTable::sparse(alloc, 4)?;
    if let Err(refused) = plain.prepare(4) {
        plain.abandon();
        return Err(refused);
    }
    plain.put_back(0, catalogue.open(0, Mark::Registered { k: 1, i: 0 }, TAG));
    match T::open(alloc, plain, CHAINS, 2) {
        Ok(opened) => Ok(opened),
        Err((plain, refused)) => {
            plain.abandon();
            Err(refused)
        }
    }
}

// Reads the file while it is replaced, and then opens files until the table is full. Returns the
// number of bytes that were read, if slot 0 had a file, and of files that were opened.
fn serve_by_name<T: FileTable, R: Threads + Wait + Sync>(
    rt: &R,
    alloc: Global,
    catalogue: &Catalogue,
    by_reader: &mut CloseList,
    by_writer: &mut CloseList,
) -> Result<(Option<u32>, u32), NoMemory>
    requires entry { 1 < length catalogue.now }
    requires room { (0 < by_reader.old.room) × (0 < by_writer.old.room) }
{
    let (table, mut passes) = shared_table::<T>(alloc, catalogue)?;
    // A pass that is used by name leaves the list and returns to it, since the table is closed with
    // all passes.
    let (mut reader, mut writer) = (passes.pop().unwrap(), passes.pop().unwrap());
    let (one, other) = (&mut reader, &mut writer);
    let count = read_while_replaced(
        rt, alloc, catalogue, &table, one, other, by_reader, by_writer,
    );
    let opened = open_until_full(rt, catalogue, &table, &mut writer);
    passes.push_reserved(writer);
    passes.push_reserved(reader);
    table.close(passes).abandon();
    Ok((count?, opened))
}

// Replaces the file under load. Returns the number of closed files.
fn serve_under_load<T: FileTable, R: Threads + Wait + Sync>(
    rt: &R,
    alloc: Global,
    catalogue: &Catalogue,
) -> Result<u32, NoMemory>
    requires { 1 < length catalogue.now }
{
    let (table, mut passes) = shared_table::<T>(alloc, catalogue)?;
    let closed = AtomicU32::new(0);
    replace_under_load(rt, catalogue, &table, &mut passes, &closed);
    table.close(passes).abandon();
    Ok(closed.load(Ordering::SeqCst))
}

// Prints how many bytes were read, and the files that each thread closed.
fn print_closed<R: Print>(
    rt: &R,
    alloc: Global,
    count: u32,
    by_reader: &CloseList,
    by_writer: &CloseList,
) -> Result<(), NoMemory> {
    let (writer, reader) = (by_writer.len(), by_reader.len());
    // A line that can't be written changes nothing.
    let _ = println!(rt;
        "the reader read {count} bytes of the file that it holds\n\
         files closed by the writer: {writer}, by the reader: {reader}"
    );
    for tag in &by_reader.tags(alloc)? {
        let tag = tag.user_data;
        let _ = println!(rt; "reported by the reader: the file with tag {tag} is closed");
    }
    Ok(())
}

/// Does the three things, the last one first and with a table of its own, and prints the results.
pub fn run<R: Threads + Wait + Sync + Print>(
    rt: &R,
    alloc: Global,
    catalogue: &Catalogue,
) -> Result<(), NoMemory>
    requires { 1 < length catalogue.now }
{
    let closed = serve_under_load::<CountedTable, R>(rt, alloc, catalogue)?;
    let mut by_reader = CloseList::with_room(alloc, 1)?;
    let mut by_writer = CloseList::with_room(alloc, 1)?;
    let (first, second) = (&mut by_reader, &mut by_writer);
    let (count, opened) = serve_by_name::<CountedTable, R>(rt, alloc, catalogue, first, second)?;
    if let Some(count) = count {
        print_closed(rt, alloc, count, &by_reader, &by_writer)?;
        let _ = println!(rt;
            "files opened at any slot until no slot was free: {opened}\n\
             files that were replaced and closed under load: {closed}"
        );
    }
    Ok(())
}
