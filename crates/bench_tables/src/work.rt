//! Many calls on a shared table, none of which allocates: tests/check-allocations counts.
ghost use Rattle.std.specs.Prelude.{◌<◌, IfSome, length};
ghost use Rattle.fx_table.specs.Pass.{IsIdle};

use crate::shape::{Shape, shaped};
use crate::shared::{READ_LEN, look, put, put_any, read, take};
use fx_base::{Catalogue, Mark};
use fx_table::{FileTable, MAX_CHAINS};
use std::alloc::Global;
use std::sync::Wait;

/// The operation that is repeated.
#[derive(Clone, Copy)]
enum Work {
    /// Looks up a random slot and releases its file.
    Look,
    /// Does the same nine times out of ten; the tenth time replaces the file there and retires the
    /// old one.
    Mixed,
    /// Installs a file at a slot, looks it up, reads and releases it, and takes and retires it.
    Chain,
    /// Installs a file at an empty slot, and takes and retires it.
    Allocate,
}

/// The work, its number of repetitions, and the shape of the table. The number of slots is a power
/// of 2.
#[derive(Clone, Copy)]
struct Row {
    work: Work,
    times: u32,
    shape: Shape,
}

impl Row {
    // Returns the slot of a number that may be any.
    fn slot(self, number: u32) -> u32 {
        number & self.shape.slots.wrapping_sub(1)
    }
}

// The number of look-ups; a pass has 1,048,576.
const LOOKS: u32 = 200_000;

// The number of files that are installed; a pass has 1,023 chains of 64 numbers.
const INSTALLS: u32 = 15_000;

// Returns the row with this word for its work, on a table of `slots` slots.
fn row_of(work: &str, slots: u32) -> Option<Row> {
    let (work, times, full, range) = match work {
        "look" => (Work::Look, LOOKS, slots, slots),
        "mix" => (Work::Mixed, 10 * INSTALLS, slots, slots),
        "outside" => (Work::Chain, INSTALLS, 0, 0),
        "inside" => (Work::Chain, INSTALLS, 0, slots),
        "allocate" => (Work::Allocate, INSTALLS, slots.saturating_sub(16), slots),
        _ => return None,
    };
    let shape = Shape { slots, full, range };
    Some(Row { work, times, shape })
}

// The mark of every file; it has no meaning here.
const MARK: Mark = Mark::Registered { k: 0, i: 0 };

// Returns the next number of a sequence whose upper half looks random.
fn next(number: u32) -> u32 {
    number.wrapping_mul(1_664_525).wrapping_add(1_013_904_223)
}

// Creates a catalogue of one entry of 64 bytes.
fn one_entry(alloc: Global) -> Option<Catalogue>
    ensures { IfSome result (λ catalogue. 0 < length catalogue) }
{
    let name = String::from_str(alloc, "a.txt").ok()?;
    let bytes = vec![in alloc; 7; 64].ok()?;
    let mut catalogue = Catalogue::new(alloc);
    match catalogue.add(name, bytes) {
        Ok(()) => Some(catalogue),
        Err(_) => None,
    }
}

// Does the work. Returns the number of calls that found, read, installed or took a file, or `None`
// if an allocation fails.
fn do_work<T: FileTable, R: Wait>(
    rt: &R,
    alloc: Global,
    table: &T,
    pass: &mut T::Pass,
    catalogue: &Catalogue,
    row: Row,
) -> Option<u32>
    requires ready { T.fits table.now pass.old × IsIdle (T.view pass.old) }
    requires entry { 0 < length catalogue.now }
    ensures { T.fits table.now pass.new × IsIdle (T.view pass.new) }
{
    let mut into = Vec::with_capacity(alloc, READ_LEN as usize).ok()?;
    let (mut random, mut done) = (1, 0u32);
    for i in 0..row.times {
        random = next(random);
        let slot = row.slot(random >> 16);
        let calls = match row.work {
            Work::Mixed if i % 10 == 9 => put(rt, table, pass, slot, catalogue.open(0, MARK, 0)),
            Work::Look | Work::Mixed => look(rt, table, pass, slot),
            Work::Chain => {
                let installed = put(rt, table, pass, slot, catalogue.open(0, MARK, 0));
                let found = read(rt, table, pass, catalogue, slot, &mut into);
                let taken = take(rt, table, pass, slot);
                installed.wrapping_add(found).wrapping_add(taken)
            }
            Work::Allocate => match put_any(rt, table, pass, catalogue.open(0, MARK, 0)) {
                Some(slot) => take(rt, table, pass, slot).wrapping_add(1),
                None => 0,
            },
        };
        done = done.wrapping_add(calls);
    }
    Some(done)
}

/// Does the work of this word on a table of `slots` slots, and prints the number of calls that
/// found, read, installed or took a file.
pub(crate) fn play<T: FileTable, R: Wait + Print>(
    rt: &R,
    alloc: Global,
    work: &str,
    slots: u32,
) -> Option<()> {
    let row = row_of(work, slots)?;
    let catalogue = &one_entry(alloc)?;
    let mut done = None;
    match T::open(alloc, shaped(alloc, catalogue, row.shape)?, MAX_CHAINS, 1) {
        Err((plain, _)) => plain.abandon(),
        Ok((table, mut passes)) => {
            if !passes.is_empty() {
                done = do_work(rt, alloc, &table, &mut passes[0], catalogue, row);
            }
            table.close(passes).abandon();
        }
    }
    println!(rt; "{work}: {} calls", done?).ok()
}
