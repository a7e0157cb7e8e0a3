//! A slot as the states of a search have it.
ghost use Rattle.std.specs.Prelude.{◌≡◌};
ghost use Rattle.check_search.specs.Words.{list_all};
ghost use Rattle.check_search.specs.Machine.{allows, cell_at, cells_after, is_staying, is_taken, may_find, may_leave, may_stay, suits, with_cell};

use crate::claim::{Claim, Condition, Leaves, Resident};

/// A slot, and what is there.
#[derive(Clone, Copy, PartialEq, Eq)]
pub struct Cell {
    /// The slot.
    pub slot: u32,
    /// True if the slot is in the allocation range.
    pub in_range: bool,
    /// The file at the slot, or `None`.
    pub file: Option<Resident>,
}

/// Returns the file at `slot`, or `None` if the slot is empty or not among `cells`.
pub fn cell_at(cells: &[Cell], slot: u32) -> Option<Resident>
    ensures { result ≡ cell_at cells.now slot }
{
    for cell in cells {
        if cell.slot == slot {
            return cell.file;
        }
    }
    None
}

// Checks whether the file found is one that a claim speaks of.
fn suits(condition: &Condition, found: Option<Resident>) -> bool
    ensures { result ≡ suits condition.now found }
{
    match condition {
        Condition::Anything => true,
        Condition::Nothing | Condition::NothingToTake => found.is_none(),
        Condition::Something => found.is_some(),
        Condition::Bytes(fits) => match found {
            Some(resident) => fits[resident.file.entry as usize],
            None => false,
        },
    }
}

/// Checks whether what was found may be removed: nothing, or a file that the closes have.
pub(crate) fn may_leave(found: Option<Resident>) -> bool
    ensures { result ≡ may_leave found }
{
    match found {
        Some(resident) => resident.leaves,
        None => true,
    }
}

/// Checks whether what was found may stay: nothing, or a file that the closes don't have.
pub(crate) fn may_stay(found: Option<Resident>) -> bool
    ensures { result ≡ may_stay found }
{
    match found {
        Some(resident) => !resident.leaves,
        None => true,
    }
}

/// Checks whether a claim may be made if `found` is at its slot.
pub(crate) fn may_find(claim: &Claim, found: Option<Resident>) -> bool
    ensures { result ≡ may_find claim.now found }
{
    match claim {
        Claim::At(_, condition, leaves) => {
            suits(condition, found) && (matches!(leaves, Leaves::Same) || may_leave(found))
        }
        Claim::Full => true,
    }
}

// Checks whether each slot of the allocation range has a file.
fn are_taken(cells: &[Cell]) -> bool
    ensures { result ≡ list_all is_taken cells.now }
{
    cells
        .iter()
        .all(|cell| !cell.in_range || cell.file.is_some())
}

/// Checks whether no slot has a file that the closes have.
pub(crate) fn are_staying(cells: &[Cell]) -> bool
    ensures { result ≡ list_all is_staying cells.now }
{
    cells.iter().all(|cell| may_stay(cell.file))
}

/// Checks whether the access of a claim may be made if the slots have these files.
pub(crate) fn is_allowed(cells: &[Cell], claim: &Claim) -> bool
    ensures { result ≡ allows cells.now claim.now }
{
    match claim {
        Claim::At(slot, _, _) => may_find(claim, cell_at(cells, *slot)),
        Claim::Full => are_taken(cells),
    }
}

// Writes what is at a slot.
fn write(cells: &mut [Cell], slot: u32, file: Option<Resident>)
    ensures { cells.new ≡ with_cell cells.old slot file }
{
    for i in 0..cells.len() {
        if cells[i].slot == slot {
            cells[i].file = file;
        }
    }
}

/// Applies the access of a claim to `cells`: the file at its slot is replaced, removed or left as
/// it is.
pub fn apply(cells: &mut [Cell], claim: &Claim)
    ensures { cells.new ≡ cells_after cells.old claim.now }
{
    match claim {
        Claim::At(slot, _, Leaves::Empty) => write(cells, *slot, None),
        Claim::At(slot, _, Leaves::File(resident)) => write(cells, *slot, Some(*resident)),
        Claim::At(_, _, Leaves::Same) | Claim::Full => {}
    }
}
