//! The claims of a submission's lines about some slots, for a search.
use crate::case::{Act, slots_of};
use crate::complaint::Complaint;
use crate::facts::Facts;
use check_search::{Cell, Claim, Condition, Leaves, Resident, Strand};
use fx_base::NoMemory;
use fx_chain::Intent;
use std::alloc::{AllocError, Global};

/// The files that stay at their slots. Each other one is closed.
#[derive(Clone, Copy)]
pub(crate) enum Stays {
    /// Those without a `closed` line.
    AsClosed,
    /// At most one of each slot, the chosen one.
    Chosen,
    /// None, and each slot is emptied once more, at any time, by nobody in particular. Each other
    /// choice has no more orders.
    Swept,
}

/// A view of a submission's lines.
#[derive(Drop)]
pub(crate) struct ClaimsView<'a> {
    pub facts: &'a Facts<'a>,
    /// For each slot, true if the search looks at it.
    pub slots: Vec<bool>,
    /// For each line, from 0, true if it is left out.
    pub out: Vec<bool>,
    pub stays: Stays,
    /// For each file, true if it is the chosen one of its slot.
    pub chosen: Vec<bool>,
}

// Appends a claim of a chain to those of its strand.
fn push_claim(
    alloc: Global,
    strands: &mut Vec<Strand>,
    chain: u32,
    claim: Claim,
) -> Result<(), AllocError> {
    if let Some(last) = strands.last_mut()
        && last.chain == chain
    {
        return Ok(last.claims.push(claim)?);
    }
    let claims = vec![in alloc; claim]?;
    Ok(strands.push(Strand { chain, claims })?)
}

impl ClaimsView<'_> {
    /// Checks whether a slot is looked at.
    pub(crate) fn has_slot(&self, slot: u32) -> bool {
        matches!(self.slots.get(slot as usize), Some(true))
    }

    // Checks whether a line is left out.
    fn is_out(&self, line: usize) -> bool {
        matches!(self.out.get(line), Some(true))
    }

    /// Checks whether an access is at a slot that is looked at. One that has no slot is at each
    /// slot of the allocation range.
    pub(crate) fn has(&self, act: &Act) -> bool {
        let facts = self.facts;
        let (first, end) = slots_of(act.slot, facts.case.slots.range);
        for slot in first..end {
            if self.has_slot(slot) {
                return true;
            }
        }
        false
    }

    // Adds the lines whose accesses depend on the slots, and, unless `depends`, those whose
    // accesses change them.
    fn add_lines(&self, depends: bool, said: &mut Complaint) {
        let mut last = None;
        for act in &self.facts.acts {
            let is_meant = act.found.is_some() || !depends && act.is_done;
            let is_new = last != Some(act.line);
            if is_meant && is_new && self.has(act) && !self.is_out(act.line) {
                said.line(act.line);
                last = Some(act.line);
            }
        }
    }

    /// Adds the lines that depend on the slots, with the slots' `closed` lines if `closes`, or else
    /// the lines that change the slots.
    pub(crate) fn add_named(&self, closes: bool, said: &mut Complaint) {
        self.add_lines(true, said);
        let mut line = self.facts.rows.len();
        for close in &self.facts.closes {
            if let Some(it) = close.file
                && closes
                && self.has_slot(it.slot)
            {
                said.line(line);
            }
            line = line.saturating_add(1);
        }
        if said.lines.is_empty() {
            self.add_lines(false, said);
        }
    }

    // Returns a file of the report, by its number, as a search has it.
    fn resident(&self, number: usize) -> Option<Resident> {
        let it = self.facts.files.get(number)?;
        let leaves = match self.stays {
            Stays::AsClosed => it.closed.is_some(),
            Stays::Chosen => !matches!(self.chosen.get(number), Some(true)),
            Stays::Swept => true,
        };
        let file = it.file;
        Some(Resident { file, leaves })
    }

    // Returns for each entry whether the read of a line may have found a file of it: the read got
    // the file's bytes.
    fn fits_of(&self, line: usize) -> Result<[bool; 256], NoMemory> {
        let facts = self.facts;
        let (catalogue, mut fits) = (facts.case.catalogue, [false; 256]);
        let mut bytes = Vec::new(facts.case.alloc);
        if let Some(row) = facts.rows.get(line)
            && let Some(it) = &row.answer
        {
            for number in 0..catalogue.len() {
                let entry = u8::try_from(number).unwrap_or(u8::MAX);
                row.request.read_into(catalogue, entry, &mut bytes)?;
                fits[entry as usize] = bytes.as_slice() == it.got.as_slice();
            }
        }
        Ok(fits)
    }

    // Returns the claim of an access, if it makes one. That of a close that is left out empties the
    // slot, if anything.
    fn claim_of(&self, act: &Act) -> Result<Option<Claim>, NoMemory> {
        let Some(slot) = act.slot else {
            return Ok(act.found.map(|_| Claim::Full));
        };
        let is_out = self.is_out(act.line);
        let resident = act.file.and_then(|number| self.resident(number));
        let (expects, leaves) = match (act.intent, act.found, resident) {
            (Intent::Look(_), Some(_), _) if is_out => return Ok(None),
            (Intent::Take(_), Some(_), _) if is_out => (Condition::Anything, Leaves::Empty),
            (Intent::Look(_), Some(true), _) => {
                (Condition::Bytes(self.fits_of(act.line)?), Leaves::Same)
            }
            (Intent::Look(_), Some(false), _) => (Condition::Nothing, Leaves::Same),
            (Intent::Take(_), Some(true), _) => (Condition::Something, Leaves::Empty),
            (Intent::Take(_), Some(false), _) => (Condition::NothingToTake, Leaves::Same),
            (Intent::Clear(_), _, _) if act.is_done => (Condition::Anything, Leaves::Empty),
            (Intent::Put(..), _, Some(file)) => (Condition::Anything, Leaves::File(file)),
            (Intent::Allocate(_), _, Some(file)) => (Condition::Nothing, Leaves::File(file)),
            _ => return Ok(None),
        };
        Ok(Some(Claim::At(slot, expects, leaves)))
    }

    // Returns the claims of each chain about the slots that are looked at.
    fn strands(&self) -> Result<Vec<Strand>, NoMemory> {
        let (alloc, mut strands) = (self.facts.case.alloc, Vec::new(self.facts.case.alloc));
        for act in &self.facts.acts {
            if self.has(act)
                && let Some(claim) = self.claim_of(act)?
            {
                push_claim(alloc, &mut strands, self.facts.chain_of(act.line), claim)?;
            }
        }
        Ok(strands)
    }

    // Returns the slots that are looked at, as they are before the submission.
    fn cells(&self) -> Result<Vec<Cell>, NoMemory> {
        let (mut cells, mut number, mut slot) = (Vec::new(self.facts.case.alloc), 0usize, 0u32);
        let facts = self.facts;
        let slots = facts.case.slots;
        let (first, end) = slots_of(None, slots.range);
        for found in &slots.at {
            let mut file = None;
            if found.is_some() {
                file = self.resident(number);
                number = number.saturating_add(1);
            }
            if self.has_slot(slot) {
                let in_range = first <= slot && slot < end;
                cells.push(Cell {
                    slot,
                    in_range,
                    file,
                })?;
            }
            slot = slot.saturating_add(1);
        }
        Ok(cells)
    }

    /// Returns the slots that are looked at, as they are before the submission, and the claims of
    /// each chain about them.
    pub(crate) fn question(&self) -> Result<(Vec<Cell>, Vec<Strand>), NoMemory> {
        let (cells, mut strands) = (self.cells()?, self.strands()?);
        if matches!(self.stays, Stays::Swept) {
            for cell in &cells {
                let sweep = Claim::At(cell.slot, Condition::Anything, Leaves::Empty);
                let claims = vec![in self.facts.case.alloc; sweep]?;
                strands.push(Strand { chain: 0, claims })?;
            }
        }
        Ok((cells, strands))
    }
}
