//! Calls without a ring: adding a file to a catalogue, preparing a table of one thread, and sharing
//! it between passes.
ghost use Rattle.std.specs.Prelude.{IfSome};
ghost use Rattle.fx_plain.specs.State.{IsSettled};
ghost use Rattle.fx_plain.specs.Contents.{state_of};

use crate::refusals::{ATTEMPTS, print_done, print_refused};
use fx_base::{Catalogue, NoMemory};
use fx_plain::PlainTable;
use fx_table::{FileTable, MAX_PASSES};
use std::alloc::Global;

/// The number of chains that a shared table is opened for.
const CHAINS: u32 = 2;

// Adds a file of two bytes to a catalogue. Returns whether it was added, or `None` if an allocation
// before the call fails.
fn add_two_bytes<R: Print>(rt: &R, alloc: Global, catalogue: &mut Catalogue) -> Option<bool> {
    let name = String::from_str(alloc, "new.txt").ok()?;
    match catalogue.add(name, b"hi".to_vec(alloc).ok()?) {
        Ok(()) => {
            print_done(rt, "add");
            Some(true)
        }
        Err(fault) => {
            print_refused(rt, "add", fault);
            Some(false)
        }
    }
}

/// Adds a file of two bytes to a catalogue of `entries` entries: the n-th, from 0, is `n.txt` and
/// has no bytes.
pub(crate) fn add<R: Print>(rt: &R, alloc: Global, entries: u32) -> Option<()> {
    let mut catalogue = Catalogue::new(alloc);
    for n in 0..entries {
        let name = format!(in alloc; "{n}.txt").ok()?;
        catalogue.add(name, Vec::new(alloc)).ok()?;
    }
    for _ in 0..ATTEMPTS {
        if add_two_bytes(rt, alloc, &mut catalogue)? {
            break;
        }
    }
    Some(())
}

// Creates a settled table of four slots, prepared for eight numbers. Returns `None` if an
// allocation fails.
fn prepared_table(alloc: Global) -> Option<PlainTable>
    ensures { IfSome result (λ plain. IsSettled (state_of plain)) }
{
    let mut plain = PlainTable::sparse(alloc, 4).ok()?;
    if plain.is_settled() && plain.size() <= 8 && plain.prepare(8).is_ok() && plain.is_settled() {
        return Some(plain);
    }
    plain.abandon();
    None
}

/// Prepares a table for `numbers` numbers.
pub(crate) fn prepare<R: Print>(rt: &R, alloc: Global, numbers: u32) -> Option<()> {
    let mut plain = prepared_table(alloc)?;
    for _ in 0..ATTEMPTS {
        if !plain.is_settled() || numbers < plain.size() {
            break;
        }
        match plain.prepare(numbers) {
            Ok(()) => {
                print_done(rt, "prepare");
                break;
            }
            Err(NoMemory) => print_refused(rt, "prepare", NoMemory),
        }
    }
    plain.abandon();
    Some(())
}

/// Shares a table between `passes` passes, and closes it again.
pub(crate) fn open<T: FileTable, R: Print>(rt: &R, alloc: Global, passes: u32) -> Option<()> {
    if passes == 0 || passes > MAX_PASSES {
        return None;
    }
    let mut plain = prepared_table(alloc)?;
    for _ in 0..ATTEMPTS {
        plain = match T::open(alloc, plain, CHAINS, passes) {
            Ok((table, list)) => {
                print_done(rt, "open");
                table.close(list).abandon();
                return Some(());
            }
            Err((back, NoMemory)) => {
                print_refused(rt, "open", NoMemory);
                back
            }
        };
    }
    plain.abandon();
    Some(())
}
