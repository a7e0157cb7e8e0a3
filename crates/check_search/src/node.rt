//! A state of a search, as it is and in few bytes.
ghost use Rattle.std.specs.Prelude.{◌≡◌, ℕ, None, IfOk, IsTrue, option_map, option_copied, slice_index};
ghost use Rattle.check_search.specs.Machine.{IsEndOfClaims, claim_at, is_test, next, view};
ghost use Rattle.check_search.specs.Starts.{starting};
ghost use Rattle.check_search.specs.Packed.{packed_file, numbered_cells, unpacked};

use crate::cell::{Cell, apply, are_staying, is_allowed};
use crate::claim::{Claim, Leaves, Resident, Strand};
use crate::steps::number_at;
use fx_base::NoMemory;
use std::alloc::Global;

/// A state of a search: the number of claims of each chain that were made, and the files at the
/// slots.
#[derive(Drop)]
pub struct SearchNode {
    /// The number of claims of each chain that were made.
    pub places: Vec<usize>,
    /// The slots.
    pub cells: Vec<Cell>,
}

/// Returns the place of a chain.
pub(crate) fn place_of(places: &[usize], chain: usize) -> usize
    ensures { result ≡ slice_index places.now chain }
{
    places.get(chain).copied().unwrap_or(0)
}

/// Returns the claim that `chain` makes next, by the chain's place among `strands`, or `None` if
/// all its claims are made.
pub fn claim_of<'a>(strands: &'a [Strand], places: &[usize], chain: usize) -> Option<&'a Claim>
    ensures { option_copied result ≡ claim_at strands.now places.now chain }
{
    strands.get(chain)?.claims.get(place_of(places, chain))
}

/// Returns the state before the first claim, with `cells` as the slots.
///
/// # Errors
/// `NoMemory` if an allocation fails.
pub fn start_of(alloc: Global, strands: &[Strand], cells: &[Cell]) -> Result<SearchNode, NoMemory>
    ensures { IfOk result (λ node. view node ≡ starting strands.now cells.now) }
{
    Ok(SearchNode {
        places: strands.iter().map(|_| 0usize).collect(alloc)?,
        cells: Vec::from_slice(alloc, cells)?,
    })
}

/// Checks whether a claim changes nothing.
pub(crate) fn is_test(claim: &Claim) -> bool
    ensures { result ≡ is_test claim.now }
{
    matches!(claim, Claim::At(_, _, Leaves::Same) | Claim::Full)
}

/// Checks whether both lists have the same files at the same slots.
pub(crate) fn are_same(cells: &[Cell], others: &[Cell]) -> bool
    ensures { IsTrue result → cells.now ≡ others.now }
{
    cells == others
}

impl SearchNode {
    /// Returns the state after the next claim of a chain, if that claim may be made.
    pub(crate) fn next(
        &self,
        alloc: Global,
        strands: &[Strand],
        chain: usize,
    ) -> Result<Option<SearchNode>, NoMemory>
        ensures { IfOk result (λ r. option_map view r ≡ next strands.now (view self.now) chain) }
    {
        let Some(claim) = claim_of(strands, &self.places, chain) else {
            return Ok(None);
        };
        if !is_allowed(&self.cells, claim) {
            return Ok(None);
        }
        let mut places = Vec::from_slice(alloc, &self.places)?;
        let mut cells = Vec::from_slice(alloc, &self.cells)?;
        apply(&mut cells, claim);
        if chain < places.len() {
            places[chain] += 1;
        }
        Ok(Some(SearchNode { places, cells }))
    }

    /// Checks whether both are one.
    pub(crate) fn is_same(&self, other: &SearchNode) -> bool
        ensures { IsTrue result → view self.now ≡ view other.now }
    {
        self.places == other.places && are_same(&self.cells, &other.cells)
    }

    // Checks whether no claim is left.
    fn is_over(&self, strands: &[Strand]) -> bool
        ensures { ((c : ℕ) → claim_at strands.now self.now.places.items c ≡ None) → IsTrue result }
    {
        for chain in 0..strands.len() {
            if claim_of(strands, &self.places, chain).is_some() {
                return false;
            }
        }
        true
    }

    /// Checks whether no claim is left, and no file that the closes have.
    pub(crate) fn is_end(&self, strands: &[Strand]) -> bool
        ensures { IsEndOfClaims strands.now (view self.now) → IsTrue result }
    {
        are_staying(&self.cells) && self.is_over(strands)
    }
}

/// The meaning of the numbers of packed states. A packed state is a list of numbers: the place of
/// each chain, and for each slot the number of its file.
#[derive(Drop)]
pub struct Packing {
    /// The number of chains.
    pub chains: usize,
    /// The slots.
    pub cells: Vec<Cell>,
    /// For each slot the files that may be there, "no file" first.
    pub files: Vec<Vec<Option<Resident>>>,
}

// Returns the numbers of a packed state from one on.
fn numbers_of(alloc: Global, row: &[u16]) -> Result<Vec<usize>, NoMemory>
    ensures { IfOk result (λ numbers. numbers.items ≡ row.now) }
{
    Ok(row.iter().map(|number| *number as usize).collect(alloc)?)
}

impl Packing {
    /// Returns what is at a slot, by the places of the slot and of the file.
    pub(crate) fn file_at(&self, cell: usize, number: usize) -> Option<Resident>
        ensures { result ≡ packed_file self.now.files.items cell number }
    {
        *self.files.get(cell)?.get(number)?
    }

    /// Returns the place of a slot.
    pub(crate) fn place_of(&self, slot: u32) -> Option<usize> {
        self.cells.iter().position(|cell| cell.slot == slot)
    }

    // Returns the slots with the files of these numbers.
    fn cells_with(&self, alloc: Global, numbers: &[u16]) -> Result<Vec<Cell>, NoMemory>
        ensures { IfOk result (λ cells. cells.items
            ≡ numbered_cells self.now.files.items numbers.now 0 self.now.cells.items) }
    {
        let mut cells = Vec::with_capacity(alloc, self.cells.len())?;
        for i in 0..self.cells.len() {
            cells.push(Cell {
                file: self.file_at(i, number_at(numbers, i) as usize),
                ..self.cells[i]
            })?;
        }
        Ok(cells)
    }

    /// Returns the state that a packed one stands for.
    pub(crate) fn unpack(&self, alloc: Global, row: &[u16]) -> Result<SearchNode, NoMemory>
        ensures { IfOk result (λ node. view node ≡ unpacked self.now row.now) }
    {
        let chains = self.chains.min(row.len());
        let places = numbers_of(alloc, &row[..chains])?;
        let cells = self.cells_with(alloc, &row[chains..])?;
        Ok(SearchNode { places, cells })
    }
}
