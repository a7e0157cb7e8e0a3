//! Claims: what a completion says of one access to the table; and the claims of a chain.
ghost use Rattle.std.specs.Prelude.{◌≡◌, ◌↔◌, ◌==◌};
ghost use Rattle.check_search.specs.Words.{IsTrue, Contains, list_any};
ghost use Rattle.check_search.specs.Residents.{IsResident};

use crate::cell::Cell;
use fx_base::Closed;

/// A file at a slot, and whether it is in the list of closes.
#[derive(Clone, Copy, PartialEq, Eq)]
pub struct Resident {
    /// The file.
    pub file: Closed,
    /// True if the file is in the list of closes.
    pub leaves: bool,
}

/// The condition on what an access found at its slot.
#[derive(Clone, Copy, PartialEq, Eq)]
pub enum Condition {
    /// A file or no file.
    Anything,
    /// No file.
    Nothing,
    /// No file, for a close that looked for one.
    NothingToTake,
    /// A file.
    Something,
    /// A file of one of these catalogue entries, by their numbers: those whose bytes the completion
    /// has.
    Bytes([bool; 256]),
}

/// The content of the slot after an access.
#[derive(Clone, Copy)]
pub enum Leaves {
    /// The file that was there before, or no file.
    Same,
    /// No file.
    Empty,
    /// This file.
    File(Resident),
}

/// A claim: an access that a completion reports.
#[derive(Clone, Copy)]
pub enum Claim {
    /// An access of a slot.
    At(u32, Condition, Leaves),
    /// Each slot of the allocation range had a file.
    Full,
}

/// Returns `file` with the mark whether `closes` has it.
pub fn resident_for(closes: &[Closed], file: Closed) -> Resident
    ensures { IsResident closes.now file result }
{
    Resident {
        file,
        leaves: has(closes, file),
    }
}

// Checks whether a list in order of mark has a file, at its place in that order.
fn is_in_order_there(files: &[Closed], file: Closed) -> bool
    ensures { IsTrue result → Contains files.now file }
{
    match files.binary_search_by_key(&file.mark, |other| other.mark) {
        Ok(i) => files[i] == file,
        Err(_) => false,
    }
}

// Checks whether a list has a file. The place that it has in the order of marks is tried first,
// since closes are in that order.
fn has(files: &[Closed], file: Closed) -> bool
    ensures { IsTrue result ↔ Contains files.now file }
{
    is_in_order_there(files, file) || files.contains(&file)
}

/// A chain, by its number from 1, and its claims at some slots.
#[derive(Drop)]
pub struct Strand {
    /// The number of the chain.
    pub chain: u32,
    /// The claims in the order of the chain.
    pub claims: Vec<Claim>,
}

/// Checks whether `slot` is among `cells`.
pub fn has_slot(cells: &[Cell], slot: u32) -> bool
    ensures { result ≡ list_any (λ cell. cell.slot == slot) cells.now }
{
    cells.iter().any(|cell| cell.slot == slot)
}
