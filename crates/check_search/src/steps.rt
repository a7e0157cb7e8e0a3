//! The claims of a part by numbers, and the state of a search that goes through them. Nothing is
//! promised of it.
ghost use Rattle.std.specs.Prelude.{◌≡◌, slice_index};

use crate::cell::{Cell, may_find, may_leave, may_stay};
use crate::claim::{Claim, Leaves, Resident, Strand};
use crate::dead::is_no_help;
use crate::node::{Packing, is_test};
use crate::tally::Tally;
use fx_base::NoMemory;
use std::alloc::Global;

/// The largest number of claims at a slot that have a bit each. 16 bits of a moment are left for
/// the number of a file.
pub const MOST_CLAIMS: usize = 48;

/// A claim, the place of its slot among those of the part, the number of the file that it leaves
/// there, the class that it is counted in, and its bit among the claims of the slot, or 0 if the
/// slot has too many claims.
#[derive(Clone, Copy)]
pub struct ClaimStep<'a> {
    pub claim: &'a Claim,
    pub cell: Option<usize>,
    pub left: Option<u16>,
    pub class: usize,
    pub bit: u64,
}

/// A claim, by its chain and its place among the chain's.
pub type ClaimAt = (usize, usize);

/// Returns the number at a place of a packed state.
pub(crate) fn number_at(row: &[u16], place: usize) -> u16
    ensures { result ≡ slice_index row.now place }
{
    row.get(place).copied().unwrap_or(0)
}

/// Sets the number at a place, if the state has it.
pub(crate) fn set_number(row: &mut [u16], place: usize, number: u16) {
    if let Some(own) = row.get_mut(place) {
        *own = number;
    }
}

// Returns the number of the file that a claim leaves at a slot with these files, or `None` if it
// leaves what is there. A file that is installed gets the next number.
fn left_by(leaves: &Leaves, files: &mut Vec<Option<Resident>>) -> Result<Option<u16>, NoMemory> {
    match leaves {
        Leaves::Same => Ok(None),
        Leaves::Empty => Ok(Some(0)),
        Leaves::File(file) => {
            let number = files.len();
            files.push(Some(*file))?;
            Ok(Some(u16::try_from(number).unwrap_or(u16::MAX)))
        }
    }
}

/// The claims of chains at some slots.
#[derive(Drop)]
pub struct Steps<'a> {
    pub packing: Packing,
    // The claims of each chain.
    chains: Vec<Vec<ClaimStep<'a>>>,
    // The chains with a claim that only tests, the first one first.
    testing: Vec<usize>,
    // Those of each slot, none of them counted.
    slots: Vec<Tally<'a>>,
    /// The number of claims.
    pub(crate) count: usize,
}

impl<'a> Steps<'a> {
    /// Returns the claims of `strands` at `cells` by numbers.
    ///
    /// # Errors
    /// `NoMemory` if an allocation fails.
    pub fn new(
        alloc: Global,
        strands: &'a [Strand],
        cells: &[Cell],
    ) -> Result<Steps<'a>, NoMemory> {
        let mut steps = Steps {
            packing: Packing {
                chains: strands.len(),
                cells: Vec::from_slice(alloc, cells)?,
                files: Vec::new(alloc),
            },
            chains: Vec::new(alloc),
            testing: Vec::new(alloc),
            slots: Vec::new(alloc),
            count: 0,
        };
        steps.fill(alloc, strands, cells)?;
        Ok(steps)
    }

    // Adds slots, and the chains of these strands.
    fn fill(&mut self, alloc: Global, from: &'a [Strand], cells: &[Cell]) -> Result<(), NoMemory> {
        for cell in cells {
            self.push_slot(alloc, cell.file)?;
        }
        for strand in from {
            self.push_chain(alloc, &strand.claims)?;
        }
        Ok(())
    }

    // Adds a slot without claims: "no file" is its first file, and then the one that is there.
    fn push_slot(&mut self, alloc: Global, file: Option<Resident>) -> Result<(), NoMemory> {
        let files = match file {
            Some(_) => Vec::from_slice(alloc, &[None, file])?,
            None => Vec::from_slice(alloc, &[None])?,
        };
        self.packing.files.push(files)?;
        self.slots.push(Tally::new(alloc))?;
        Ok(())
    }

    fn push_chain(&mut self, alloc: Global, claims: &'a [Claim]) -> Result<(), NoMemory> {
        let chain = self.chains.len();
        let mut own = Vec::with_capacity(alloc, claims.len())?;
        for (k, claim) in claims.iter().enumerate() {
            own.push(self.step_of(claim, (chain, k))?)?;
        }
        self.count = self.count.saturating_add(claims.len());
        if claims.iter().any(is_test) {
            self.testing.push(chain)?;
        }
        self.chains.push(own)?;
        Ok(())
    }

    fn step_of(&mut self, claim: &'a Claim, at: ClaimAt) -> Result<ClaimStep<'a>, NoMemory> {
        let mut step = ClaimStep {
            claim,
            cell: None,
            left: None,
            class: 0,
            bit: 0,
        };
        if let Claim::At(slot, _, leaves) = claim
            && let Some(cell) = self.packing.place_of(*slot)
            && let Some(files) = self.packing.files.get_mut(cell)
            && let Some(own) = self.slots.get_mut(cell)
        {
            step.cell = Some(cell);
            step.left = left_by(leaves, files)?;
            own.add(&mut step, at)?;
        }
        Ok(step)
    }

    /// Returns the state before the first claim.
    pub fn start(&self, alloc: Global) -> Result<Vec<u16>, NoMemory> {
        let mut row = vec![in alloc; 0; self.chains.len()]?;
        for cell in &self.packing.cells {
            row.push(u16::from(cell.file.is_some()))?;
        }
        Ok(row)
    }

    /// Returns the claim that a chain makes next.
    pub(crate) fn next_of(&self, row: &[u16], chain: usize) -> Option<ClaimStep<'a>> {
        self.step_at(chain, number_at(row, chain) as usize)
    }

    /// Returns the place of the slot of the claim that a chain makes next, if it has one.
    pub(crate) fn cell_of(&self, row: &[u16], chain: usize) -> Option<usize> {
        self.next_of(row, chain)?.cell
    }

    /// Returns the claim of a chain at a place.
    pub(crate) fn step_at(&self, chain: usize, place: usize) -> Option<ClaimStep<'a>> {
        self.chains.get(chain)?.get(place).copied()
    }

    /// Returns the claims of a slot, each with its chain, those of the first chain first.
    pub(crate) fn claims_at(
        &self,
        alloc: Global,
        cell: usize,
    ) -> Result<Vec<(usize, ClaimStep<'a>)>, NoMemory> {
        let places = self
            .slots
            .get(cell)
            .into_iter()
            .flat_map(|own| own.places.iter());
        let claims = places.filter_map(|(chain, k)| Some((*chain, self.step_at(*chain, *k)?)));
        Ok(claims.collect(alloc)?)
    }

    // Returns the claim of a chain at a place, if it is still to be made.
    fn left_at(&self, row: &[u16], at: ClaimAt) -> Option<&'a Claim> {
        let (chain, k) = at;
        if k < number_at(row, chain) as usize {
            return None;
        }
        Some(self.step_at(chain, k)?.claim)
    }

    /// Returns the file number at a slot.
    pub(crate) fn file_number(&self, row: &[u16], cell: usize) -> u16 {
        number_at(row, self.chains.len().saturating_add(cell))
    }

    /// Returns the file at a slot.
    pub fn file(&self, row: &[u16], cell: usize) -> Option<Resident> {
        self.packing
            .file_at(cell, self.file_number(row, cell) as usize)
    }

    /// Checks whether a claim may be made, if `empty` slots of the allocation range are empty.
    pub(crate) fn allows(&self, row: &[u16], step: &ClaimStep<'_>, empty: usize) -> bool {
        match step.cell {
            Some(cell) => may_find(step.claim, self.file(row, cell)),
            None => empty == 0,
        }
    }

    /// Checks whether a slot is in the allocation range.
    pub fn is_in_range(&self, cell: usize) -> bool {
        matches!(self.packing.cells.get(cell), Some(cell) if cell.in_range)
    }

    /// Returns the number of empty slots of the allocation range.
    pub(crate) fn empty(&self, row: &[u16]) -> usize {
        (0..self.packing.cells.len())
            .filter(|cell| self.is_in_range(*cell) && self.file_number(row, *cell) == 0)
            .count()
    }

    /// Returns the claims of each slot, all of them still to be made.
    pub fn tallies(&self, alloc: Global) -> Result<Vec<Tally<'a>>, NoMemory> {
        let mut tallies = Vec::with_capacity(alloc, self.slots.len())?;
        for slot in &self.slots {
            let mut tally = slot.copy(alloc)?;
            for (chain, k) in &slot.places {
                if let Some(step) = self.step_at(*chain, *k) {
                    tally.count_claim(&step, true);
                }
            }
            tallies.push(tally)?;
        }
        Ok(tallies)
    }

    /// Checks whether no slot has a file that the closes have.
    pub(crate) fn is_staying(&self, row: &[u16]) -> bool {
        (0..self.packing.cells.len()).all(|cell| may_stay(self.file(row, cell)))
    }

    /// Returns a chain whose next claim only tests and may be made, if `empty` slots of the
    /// allocation range are empty.
    pub(crate) fn test_of(&self, row: &[u16], empty: usize) -> Option<usize> {
        let mut testing = self.testing.iter().copied();
        testing.find(|chain| {
            let step = self.next_of(row, *chain);
            step.is_some_and(|step| is_test(step.claim) && self.allows(row, &step, empty))
        })
    }

    /// Makes the next claim of a chain, and returns the number of the file that was at its slot.
    pub(crate) fn make(&self, row: &mut [u16], chain: usize, step: &ClaimStep<'_>) -> u16 {
        let place = number_at(row, chain).saturating_add(1);
        set_number(row, chain, place);
        let Some(cell) = step.cell else {
            return 0;
        };
        let before = self.file_number(row, cell);
        if let Some(left) = step.left {
            set_number(row, self.chains.len().saturating_add(cell), left);
        }
        before
    }

    // Checks whether a claim that is still to be made leaves a file at the slot that the claim at
    // this place may find. The earlier claims are tried first, the last of them first, since a
    // chain mostly waits for one of these.
    fn is_helped(
        &self,
        row: &[u16],
        claims: &[ClaimAt],
        at: usize,
        slot: u32,
        claim: &Claim,
    ) -> bool {
        (0..claims.len()).any(|n| {
            let other = claims.get(if n < at { at - 1 - n } else { n });
            let other = other.and_then(|other| self.left_at(row, *other));
            other.is_some_and(|other| !is_no_help(slot, claim, other))
        })
    }

    /// Returns the state after the next claim of a chain.
    pub(crate) fn row_after(
        &self,
        alloc: Global,
        row: &[u16],
        chain: usize,
    ) -> Result<Vec<u16>, NoMemory> {
        let mut after = Vec::from_slice(alloc, row)?;
        if let Some(step) = self.next_of(row, chain) {
            self.make(&mut after, chain, &step);
        }
        Ok(after)
    }

    /// Returns a claim of a slot, still to be made, that waits for a file which is never installed.
    pub fn hopeless(&self, row: &[u16], cell: usize) -> Option<ClaimAt> {
        let claims = &self.slots.get(cell)?.places;
        let slot = self.packing.cells.get(cell)?.slot;
        let found = self.file(row, cell);
        for (i, at) in claims.iter().enumerate() {
            let Some(claim) = self.left_at(row, *at) else {
                continue;
            };
            if may_find(claim, found) {
                continue;
            }
            if !may_leave(found) || !self.is_helped(row, claims, i, slot, claim) {
                return Some(*at);
            }
        }
        None
    }
}
