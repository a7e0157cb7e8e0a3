//! Removals and replacements by a key by one pass, at a cold slot and at a hot one. No clause says
//! that the file comes out at its retirement if nobody else uses it.
ghost use Rattle.std.specs.Prelude.{◌≡◌, All, length};
ghost use Rattle.fx_table.specs.Pass.{IsIdle};
ghost use Rattle.fx_lasting.specs.Tables.{IsPassOfTable, opening_of_table, view_of};

use crate::setting::Host;
use fx_base::{Mark, OpenFile};
use fx_lasting::{Key, KeyFault, KeyPut, KeyTaken, LastingPass, LastingTable, PutOverKey};
use fx_table::LookUp;

// The takes after which the slot of a table with two passes is hot, and some more.
const LOOKS: u32 = 40;

// The result of a removal, or of a replacement.
#[derive(Clone, Copy, Debug, PartialEq, Eq)]
enum Outcome {
    Removed,
    Replaced,
    Missed(KeyFault),
}

// Opens an empty table of one slot for two passes, the first of which installs files.
fn open_empty<H: Host>(rt: &H) -> (LastingTable, Vec<LastingPass>)
    ensures passes { (opening_of_table result.0).passes ≡ 2 }
    ensures count { length result.1.items ≡ 2 }
    ensures ready { All (λ p. IsPassOfTable result.0 p × IsIdle (view_of p)) result.1.items }
{
    match LastingTable::open_sparse(rt.alloc(), 1, (0, 1), 2, 1) {
        Ok(opened) => opened,
        Err(_refused) => panic!(rt; "memory for a shared table"),
    }
}

// Discards a file that a call returned.
fn discard(out: Option<OpenFile>) {
    if let Some(file) = out {
        file.discard();
    }
}

// Installs a file at the empty slot, and returns its key.
fn put<H: Host>(rt: &H, table: &LastingTable, pass: &mut LastingPass, i: u32) -> Key
    requires { IsPassOfTable table.now pass.old }
    ensures { IsPassOfTable table.now pass.new }
{
    assert!(rt; table.is_idle(pass) && 0 < table.size() && 0 < table.numbers_left(pass));
    if let Some(removed) = table.put(pass, 0, file_of(i)) {
        discard(table.retire(pass, removed));
        panic!(rt; "an empty slot");
    }
    key_of(i)
}

// The key of the file that these numbers name.
fn key_of(i: u32) -> Key {
    Key::new(0, Mark::Registered { k: 1, i })
}

// Removes the file of a key by one pass. The file comes out at its retirement.
fn take<H: Host>(rt: &H, table: &LastingTable, pass: &mut LastingPass, key: Key) -> Outcome
    requires { IsPassOfTable table.now pass.old }
    ensures { IsPassOfTable table.now pass.new }
{
    assert!(rt; table.is_idle(pass));
    let KeyTaken {
        taken,
        freed,
        released,
    } = table.take_key(pass, key);
    discard(freed);
    discard(released);
    match taken {
        Ok(retired) => {
            table.retire(pass, retired).expect(rt, "the file").discard();
            Outcome::Removed
        }
        Err(fault) => Outcome::Missed(fault),
    }
}

// The file that these numbers name.
fn file_of(i: u32) -> OpenFile {
    OpenFile::new(Mark::Registered { k: 1, i }, 0, 0)
}

// Replaces the file of a key by one pass. The old file comes out at its retirement.
fn replace<H: Host>(
    rt: &H,
    table: &LastingTable,
    pass: &mut LastingPass,
    key: Key,
    i: u32,
) -> Outcome
    requires { IsPassOfTable table.now pass.old }
    ensures { IsPassOfTable table.now pass.new }
{
    assert!(rt; table.is_idle(pass) && 0 < table.numbers_left(pass));
    let KeyPut {
        put,
        freed,
        released,
    } = table.put_over_key(pass, key, file_of(i));
    discard(freed);
    discard(released);
    match put {
        PutOverKey::Replaced(retired) => {
            table.retire(pass, retired).expect(rt, "the file").discard();
            Outcome::Replaced
        }
        PutOverKey::Missed(fault, file) => {
            file.discard();
            Outcome::Missed(fault)
        }
    }
}

// Looks the slot up, and releases its file, so often that the slot is hot.
fn heat<H: Host>(rt: &H, table: &LastingTable, pass: &mut LastingPass)
    requires { IsPassOfTable table.now pass.old }
    ensures { IsPassOfTable table.now pass.new }
{
    for _ in 0..LOOKS {
        assert!(rt; table.is_idle(pass) && 0 < table.size());
        let LookUp { found, freed } = table.look_up(pass, 0);
        discard(freed);
        let hold = found.expect(rt, "a file at the slot");
        discard(table.release(pass, hold));
    }
}

// Removes files by their keys, one after another, of which one is at a hot slot. Then replaces
// files by their keys, of which three are at a hot slot.
fn change_some<H: Host>(
    rt: &H,
    table: &LastingTable,
    reader: &mut LastingPass,
    pass: &mut LastingPass,
)
    requires reader { IsPassOfTable table.now reader.old × IsIdle (view_of reader.old) }
    requires pass { IsPassOfTable table.now pass.old × IsIdle (view_of pass.old) }
    ensures reader { IsPassOfTable table.now reader.new × IsIdle (view_of reader.new) }
    ensures pass { IsPassOfTable table.now pass.new × IsIdle (view_of pass.new) }
{
    let first = put(rt, table, pass, 1);
    assert!(rt; take(rt, table, pass, first) == Outcome::Removed);
    assert!(rt; take(rt, table, pass, first) == Outcome::Missed(KeyFault::Empty));
    let second = put(rt, table, pass, 2);
    assert!(rt; take(rt, table, pass, first) == Outcome::Missed(KeyFault::Stale));
    heat(rt, table, reader);
    assert!(rt; take(rt, table, pass, first) == Outcome::Missed(KeyFault::Stale));
    assert!(rt; take(rt, table, pass, second) == Outcome::Removed);
    assert!(rt; take(rt, table, pass, second) == Outcome::Missed(KeyFault::Empty));
    let third = put(rt, table, pass, 3);
    assert!(rt; take(rt, table, pass, third) == Outcome::Removed);
    let first = put(rt, table, pass, 4);
    let second = key_of(5);
    let third = key_of(6);
    assert!(rt; replace(rt, table, pass, second, 5) == Outcome::Missed(KeyFault::Stale));
    assert!(rt; replace(rt, table, pass, first, 5) == Outcome::Replaced);
    assert!(rt; replace(rt, table, pass, first, 6) == Outcome::Missed(KeyFault::Stale));
    heat(rt, table, reader);
    assert!(rt; replace(rt, table, pass, first, 6) == Outcome::Missed(KeyFault::Stale));
    assert!(rt; replace(rt, table, pass, second, 6) == Outcome::Replaced);
    heat(rt, table, reader);
    assert!(rt; replace(rt, table, pass, third, 7) == Outcome::Replaced);
    let last = key_of(7);
    assert!(rt; take(rt, table, pass, last) == Outcome::Removed);
    assert!(rt; replace(rt, table, pass, last, 8) == Outcome::Missed(KeyFault::Empty));
    assert!(rt; table.is_idle(reader) && table.is_idle(pass));
}

// Removes and replaces files by the two passes of a list.
fn remove_between<H: Host>(rt: &H, table: &LastingTable, passes: &mut Vec<LastingPass>)
    requires two { length passes.old.items ≡ 2 }
    requires ready { All (λ p. IsPassOfTable table.now p × IsIdle (view_of p)) passes.old.items }
    ensures two { length passes.new.items ≡ 2 }
    ensures ready { All (λ p. IsPassOfTable table.now p × IsIdle (view_of p)) passes.new.items }
{
    let mut reader = passes.pop().unwrap();
    let mut pass = passes.pop().unwrap();
    change_some(rt, table, &mut reader, &mut pass);
    passes.push_reserved(pass);
    passes.push_reserved(reader);
}

// Files are removed and replaced by one pass.
#[test]
fn changes_by_one_pass(rt: HostRuntime) {
    let (table, mut passes) = open_empty(&rt);
    remove_between(&rt, &table, &mut passes);
    let size = table.size() as usize;
    let room = Vec::with_capacity(rt.alloc(), size).expect(&rt, "room for each file");
    let left = table.close(passes, room);
    assert!(rt; left.is_empty());
    left.destroy_empty();
}
