//! Shared tables without a ring: two passes in every interleaving of their calls. Each call
//! returns, whatever the other pass holds or has yet to retire: no clause says that a call which
//! may wait returns. What it returns is in its contract.
ghost use Rattle.std.specs.Prelude.{◌≡◌, All, length};
ghost use Rattle.fx_table.specs.Pass.{IsHoldOf, IsIdle, IsRetiredOf};

use crate::setting::{Host, one_file};
use fx_base::{Catalogue, Mark, OpenFile};
use fx_baton::BatonTable;
use fx_counted::CountedTable;
use fx_plain::PlainTable;
use fx_table::{FileTable, Hold, Retired};

// Opens a table of one slot, where the only file of a catalogue is, for two passes.
fn open_table<T: FileTable, H: Host>(rt: &H, files: &Catalogue) -> (T, Vec<T::Pass>)
    ensures passes { (T.opening result.0).passes ≡ 2 }
    ensures count { length result.1.items ≡ 2 }
    ensures ready { All (λ p. T.fits result.0 p × IsIdle (T.view p)) result.1.items }
{
    let mut plain = PlainTable::sparse(rt.alloc(), 1).expect(rt, "a table");
    assert!(rt; plain.prepare(1).is_ok() && !files.is_empty());
    plain.put_back(0, files.open(0, Mark::Registered { k: 1, i: 0 }, 0));
    match T::open(rt.alloc(), plain, 1, 2) {
        Ok(opened) => opened,
        Err(_refused) => panic!(rt; "memory for a shared table"),
    }
}

// Looks the slot up, and returns the hold of its file.
fn hold_of<T: FileTable, H: Host>(rt: &H, table: &T, pass: &mut T::Pass) -> Hold
    requires { T.fits table.now pass.old }
    ensures fits { T.fits table.now pass.new }
    ensures held { IsHoldOf (T.view pass.new) result }
{
    assert!(rt; table.is_idle(pass) && 0 < table.size());
    table.look(rt, pass, 0).expect(rt, "a file at the slot")
}

// Installs a file at the slot, and returns the file that was there, to be retired.
fn replace<T: FileTable, H: Host>(
    rt: &H,
    table: &T,
    pass: &mut T::Pass,
    files: &Catalogue,
) -> Retired
    requires { T.fits table.now pass.old }
    ensures fits { T.fits table.now pass.new }
    ensures removed { IsRetiredOf (T.view pass.new) result }
{
    assert!(rt; table.is_idle(pass) && 0 < table.size() && 0 < table.numbers_left(pass));
    assert!(rt; !files.is_empty());
    let file = files.open(0, Mark::Registered { k: 2, i: 0 }, 0);
    table.put(rt, pass, 0, file).expect(rt, "the replaced file")
}

// Discards a file that a call returned.
fn discard(out: Option<OpenFile>) {
    if let Some(file) = out {
        file.discard();
    }
}

// Releases the file that the pass holds.
fn release<T: FileTable, H: Host>(rt: &H, table: &T, pass: &mut T::Pass, hold: Hold)
    requires { T.fits table.now pass.old × IsHoldOf (T.view pass.old) hold }
    ensures { T.fits table.now pass.new }
{
    discard(table.release(rt, pass, hold));
}

// Retires the file that the pass removed.
fn retire<T: FileTable, H: Host>(rt: &H, table: &T, pass: &mut T::Pass, retired: Retired)
    requires { T.fits table.now pass.old × IsRetiredOf (T.view pass.old) retired }
    ensures { T.fits table.now pass.new }
{
    discard(table.retire(rt, pass, retired));
}

// The time at which the other pass looks the slot up and releases what it found.
#[derive(Clone, Copy)]
enum Use {
    BeforeReplacement,
    OverReplacement,
    OverBoth,
    BeforeRetirement,
    OverRetirement,
}

// Pass `b` replaces the first file and retires it, and pass `a` uses the slot.
fn play_both<T: FileTable, H: Host>(
    rt: &H,
    table: &T,
    used: Use,
    files: &Catalogue,
    b: &mut T::Pass,
    a: &mut T::Pass,
)
    requires b { T.fits table.now b.old }
    requires a { T.fits table.now a.old }
    ensures b { T.fits table.now b.new }
    ensures a { T.fits table.now a.new }
{
    match used {
        Use::BeforeReplacement => {
            let hold = hold_of(rt, table, a);
            release(rt, table, a, hold);
            let retired = replace(rt, table, b, files);
            retire(rt, table, b, retired);
        }
        Use::OverReplacement => {
            let hold = hold_of(rt, table, a);
            let retired = replace(rt, table, b, files);
            release(rt, table, a, hold);
            retire(rt, table, b, retired);
        }
        Use::OverBoth => {
            let hold = hold_of(rt, table, a);
            let retired = replace(rt, table, b, files);
            retire(rt, table, b, retired);
            release(rt, table, a, hold);
        }
        Use::BeforeRetirement => {
            let retired = replace(rt, table, b, files);
            let hold = hold_of(rt, table, a);
            release(rt, table, a, hold);
            retire(rt, table, b, retired);
        }
        Use::OverRetirement => {
            let retired = replace(rt, table, b, files);
            let hold = hold_of(rt, table, a);
            retire(rt, table, b, retired);
            release(rt, table, a, hold);
        }
    }
}

// Does the same by the two passes of a list.
fn play_between<T: FileTable, H: Host>(
    rt: &H,
    table: &T,
    used: Use,
    files: &Catalogue,
    passes: &mut Vec<T::Pass>,
)
    requires two { length passes.old.items ≡ 2 }
    requires ready { All (λ p. T.fits table.now p × IsIdle (T.view p)) passes.old.items }
    ensures two { length passes.new.items ≡ 2 }
    ensures ready { All (λ p. T.fits table.now p × IsIdle (T.view p)) passes.new.items }
{
    let (mut a, mut b) = (passes.pop().unwrap(), passes.pop().unwrap());
    assert!(rt; table.draw(&mut b) == Some(1));
    play_both(rt, table, used, files, &mut b, &mut a);
    assert!(rt; table.is_idle(&b) && table.is_idle(&a));
    passes.push_reserved(b);
    passes.push_reserved(a);
}

// Does the same, from the table's opening to its close.
fn play_on<T: FileTable, H: Host>(rt: &H, used: Use) {
    let files = one_file(rt);
    let (table, mut passes) = open_table::<T, _>(rt, &files);
    play_between(rt, &table, used, &files, &mut passes);
    table.close(passes).abandon();
}

#[test]
fn retired_while_held(rt: HostRuntime) {
    for used in [
        Use::BeforeReplacement,
        Use::OverReplacement,
        Use::OverBoth,
        Use::BeforeRetirement,
        Use::OverRetirement,
    ] {
        play_on::<BatonTable, _>(&rt, used);
        play_on::<CountedTable, _>(&rt, used);
    }
}
