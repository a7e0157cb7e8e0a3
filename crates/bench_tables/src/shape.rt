//! A table of one thread with files at its first slots, which is then shared.
ghost use Rattle.std.specs.Prelude.{◌<◌, length, IfSome};
ghost use Rattle.fx_plain.specs.State.{IsSettled};
ghost use Rattle.fx_plain.specs.Contents.{state_of};

use fx_base::{Catalogue, Mark};
use fx_plain::PlainTable;
use std::alloc::Global;

/// A table at the beginning of the work: its number of slots, the number of first slots that have
/// files, and the number of first slots that are its allocation range.
#[derive(Clone, Copy)]
pub(crate) struct Shape {
    pub(crate) slots: u32,
    pub(crate) full: u32,
    pub(crate) range: u32,
}

/// Creates a table of this shape, or returns `None` if an allocation fails or there is no such
/// table.
pub(crate) fn shaped(alloc: Global, catalogue: &Catalogue, shape: Shape) -> Option<PlainTable>
    requires { 0 < length catalogue.now }
    ensures { IfSome result (λ plain. IsSettled (state_of plain)) }
{
    if shape.slots == 0 || shape.slots > 256 {
        return None;
    }
    let Ok(mut plain) = PlainTable::sparse(alloc, shape.slots) else {
        return None;
    };
    if plain.prepare(512).is_ok() {
        fill(&mut plain, catalogue, shape.full);
    }
    if plain.set_range(0, shape.range).is_ok() && plain.is_settled() && plain.full() == shape.full {
        return Some(plain);
    }
    plain.abandon();
    None
}

// Installs files at the first `full` slots.
fn fill(plain: &mut PlainTable, catalogue: &Catalogue, full: u32)
    requires { 0 < length catalogue.now }
{
    for slot in 0..full {
        let number = slot.wrapping_add(256);
        if slot < plain.size() && plain.is_fresh(number) {
            let file = catalogue.open(0, Mark::Registered { k: 0, i: slot }, 0);
            let _replaced = plain.put(slot, number, file);
        }
    }
}
