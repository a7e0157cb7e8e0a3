//! The check of a search that found no order: whether its states show that there is none.
ghost use Rattle.std.specs.Prelude.{IfOk, IsTrue, All, Contains, Some};
ghost use Rattle.check_search.specs.Machine.{HasNoEnd, IsExplored, IsLookedThrough, LeadsInside, StepLeadsInside, TestLeadsInside, view};
ghost use Rattle.check_search.specs.Packed.{all_unpacked, unpacked};
ghost use Rattle.check_search.specs.Starts.{starting};

use crate::cell::Cell;
use crate::claim::Strand;
use crate::dead::{is_dead_by, is_uneven};
use crate::node::{SearchNode, claim_of, is_test, start_of};
use crate::search::Rows;
use crate::steps::Steps;
use fx_base::NoMemory;
use std::alloc::Global;

/// The states that a search met, and the steps that it took. The result of a step is only a hint,
/// and is checked.
#[derive(Drop)]
pub struct Web<'a> {
    /// The steps.
    pub steps: Steps<'a>,
    /// The states.
    pub rows: Rows,
}

// The check of what a search met.
#[derive(Drop)]
struct Check<'a> {
    alloc: Global,
    strands: &'a [Strand],
    steps: &'a Steps<'a>,
    rows: &'a Rows,
}

impl Check<'_> {
    // Checks whether a state is the one that the rows have where they have this row.
    fn is_at(&self, row: &Vec<u16>, node: &SearchNode) -> Result<bool, NoMemory>
        ensures { IfOk result (λ yes. IsTrue yes → Contains
            (all_unpacked self.now.steps.now.packing self.now.rows.now.keys) (view node.now)) }
    {
        let Some(number) = self.rows.get_index_of(row) else {
            return Ok(false);
        };
        let Some(row) = self.rows.get_index(number) else {
            return Ok(false);
        };
        let there = self.steps.packing.unpack(self.alloc, row)?;
        Ok(there.is_same(node))
    }

    // Checks whether a state is seen to lead to no end by the claims and files of a slot. The row
    // of the state, and the place of the slot, are hints.
    fn is_dead(&self, node: &SearchNode, row: &[u16], cell: usize) -> bool
        ensures { IsTrue result → HasNoEnd self.now.strands.now (view node.now) }
    {
        if is_dead_by(self.strands, node, self.steps.hopeless(row, cell)) {
            return true;
        }
        match node.cells.get(cell) {
            Some(own) => is_uneven(self.strands, node, own.slot),
            None => false,
        }
    }

    // Checks whether the next claim of a chain leads to one of the states if it may be made, or to
    // one that can be seen to lead to no end.
    fn step_is_inside(&self, node: &SearchNode, row: &[u16], chain: usize) -> Result<bool, NoMemory>
        ensures { IfOk result (λ yes. IsTrue yes → StepLeadsInside self.now.strands.now
            (all_unpacked self.now.steps.now.packing self.now.rows.now.keys) (view node.now) chain) }
    {
        let Some(next) = node.next(self.alloc, self.strands, chain)? else {
            return Ok(true);
        };
        let after = self.steps.row_after(self.alloc, row, chain)?;
        if self.is_at(&after, &next)? {
            return Ok(true);
        }
        match self.steps.cell_of(row, chain) {
            Some(cell) => Ok(self.is_dead(&next, &after, cell)),
            None => Ok(false),
        }
    }

    // Checks whether each step from a state leads to one of the states.
    #[tactic(auto, unfolding(crate::specs::Machine::LeadsInside))]
    fn leads_inside(&self, node: &SearchNode, row: &[u16]) -> Result<bool, NoMemory>
        ensures { IfOk result (λ yes. IsTrue yes → LeadsInside self.now.strands.now
            (all_unpacked self.now.steps.now.packing self.now.rows.now.keys) (view node.now)) }
    {
        for chain in 0..self.strands.len() {
            if !self.step_is_inside(node, row, chain)? {
                return Ok(false);
            }
        }
        Ok(true)
    }

    // Checks whether the next claim of a chain only tests, may be made, and leads to one of the
    // states.
    fn test_is_inside(&self, node: &SearchNode, row: &[u16], chain: usize) -> Result<bool, NoMemory>
        ensures { IfOk result (λ yes. IsTrue yes → TestLeadsInside self.now.strands.now
            (all_unpacked self.now.steps.now.packing self.now.rows.now.keys) (view node.now) chain) }
    {
        if !claim_of(self.strands, &node.places, chain).is_some_and(is_test) {
            return Ok(false);
        }
        let Some(next) = node.next(self.alloc, self.strands, chain)? else {
            return Ok(false);
        };
        let after = self.steps.row_after(self.alloc, row, chain)?;
        self.is_at(&after, &next)
    }

    // Checks whether a state was explored: by one step that only tests, if there is one, or else by
    // all steps.
    #[tactic(auto, unfolding(crate::specs::Machine::IsExplored))]
    fn is_explored(&self, node: &SearchNode, row: &[u16]) -> Result<bool, NoMemory>
        ensures { IfOk result (λ yes. IsTrue yes → IsExplored self.now.strands.now
            (all_unpacked self.now.steps.now.packing self.now.rows.now.keys) (view node.now)) }
    {
        match self.steps.test_of(row, self.steps.empty(row)) {
            Some(chain) => self.test_is_inside(node, row, chain),
            None => self.leads_inside(node, row),
        }
    }

    // Checks whether a state isn't an end, and was explored.
    fn is_looked_through(&self, row: &[u16]) -> Result<bool, NoMemory>
        ensures { IfOk result (λ yes. IsTrue yes → IsLookedThrough self.now.strands.now
            (all_unpacked self.now.steps.now.packing self.now.rows.now.keys)
            (unpacked self.now.steps.now.packing row.now)) }
    {
        let node = self.steps.packing.unpack(self.alloc, row)?;
        if node.is_end(self.strands) {
            return Ok(false);
        }
        self.is_explored(&node, row)
    }

    // Checks whether no state is an end, and each was explored.
    fn is_closed(&self) -> Result<bool, NoMemory>
        ensures { IfOk result (λ yes. IsTrue yes → All (λ row. IsLookedThrough self.now.strands.now
            (all_unpacked self.now.steps.now.packing self.now.rows.now.keys)
            (unpacked self.now.steps.now.packing row.items)) self.now.rows.now.keys) }
    {
        let rows = self.rows.as_slice();
        for row in rows {
            if !self.is_looked_through(row)? {
                return Ok(false);
            }
        }
        Ok(true)
    }
}

/// Checks whether the states that a search met show that no order leads to an end.
///
/// # Errors
/// `NoMemory` if an allocation fails.
pub fn shows_no_end(
    alloc: Global,
    strands: &[Strand],
    cells: &[Cell],
    web: &Web<'_>,
) -> Result<bool, NoMemory>
    ensures { IfOk result (λ yes. IsTrue yes
        → HasNoEnd strands.now (starting strands.now cells.now)) }
{
    let Some(first) = web.rows.get_index(0) else {
        return Ok(false);
    };
    let node = web.steps.packing.unpack(alloc, first)?;
    let start = start_of(alloc, strands, cells)?;
    if !node.is_same(&start) {
        return Ok(false);
    }
    let check = Check {
        alloc,
        strands,
        steps: &web.steps,
        rows: &web.rows,
    };
    check.is_closed()
}
