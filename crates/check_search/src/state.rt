//! The state that a search is at, and what is counted of it as steps are made and taken back.
//! Nothing is promised of it.

use crate::steps::{ClaimStep, Steps, number_at, set_number};
use crate::tally::{Tally, count};
use crate::tracks::moment_of;
use fx_base::NoMemory;
use std::alloc::Global;

/// Draws a number of 64 bits for a number at a place of a state.
pub(crate) fn drawn(place: usize, number: u16) -> u64 {
    let mut x = (place as u64)
        .wrapping_mul(65_536)
        .wrapping_add(u64::from(number))
        .wrapping_mul(0x9E37_79B9_7F4A_7C15);
    x = (x ^ (x >> 30)).wrapping_mul(0xBF58_476D_1CE4_E5B9);
    x = (x ^ (x >> 27)).wrapping_mul(0x94D0_49BB_1331_11EB);
    x ^ (x >> 31)
}

/// A state, and what is counted of it.
#[derive(Drop)]
pub(crate) struct SearchState<'a> {
    steps: &'a Steps<'a>,
    /// Its numbers.
    pub row: Vec<u16>,
    /// The sum of the numbers drawn for them.
    pub sum: u64,
    // The claims of each slot.
    tallies: Vec<Tally<'a>>,
    /// The number of empty slots of the allocation range.
    pub empty: usize,
}

impl<'a> SearchState<'a> {
    /// Returns the state before the first step.
    pub(crate) fn new(alloc: Global, steps: &'a Steps<'a>) -> Result<SearchState<'a>, NoMemory> {
        let tallies = steps.tallies(alloc)?;
        let row = steps.start(alloc)?;
        Ok(SearchState {
            steps,
            empty: steps.empty(&row),
            row,
            sum: 0,
            tallies,
        })
    }

    /// Returns the slot of a step and the moment there after the step, or `None` for a step without
    /// a slot.
    pub(crate) fn moment_after(&self, step: &ClaimStep<'_>) -> Option<(usize, u64)> {
        let cell = step.cell?;
        let made = self.tallies.get(cell)?.made ^ step.bit;
        let there = self.steps.file_number(&self.row, cell);
        Some((cell, moment_of(made, step.left.unwrap_or(there))))
    }

    /// Checks whether a step led to a state from which its slot's claims lead to no end.
    pub(crate) fn is_dead(&self, step: &ClaimStep<'_>) -> bool {
        match (step.cell, step.left) {
            (Some(cell), Some(_)) if cell < self.tallies.len() => {
                self.tallies[cell].is_dead(self.steps.file(&self.row, cell))
            }
            _ => false,
        }
    }

    // Counts the claim of a step as made, or as still to be made.
    fn count_step(&mut self, step: &ClaimStep<'_>, is_left: bool) {
        if let Some(cell) = step.cell
            && let Some(tally) = self.tallies.get_mut(cell)
        {
            tally.count_claim(step, is_left);
            tally.made ^= step.bit;
        }
    }

    // Adds the numbers drawn for a chain and a slot to the sum, or removes them from it, and counts
    // the slot if it is empty and in the allocation range.
    fn draw(&mut self, chain: usize, cell: Option<usize>, is_more: bool) {
        self.sum ^= drawn(chain, number_at(&self.row, chain));
        let Some(cell) = cell else {
            return;
        };
        let number = self.steps.file_number(&self.row, cell);
        self.sum ^= drawn(self.steps.packing.chains.saturating_add(cell), number);
        if number == 0 && self.steps.is_in_range(cell) {
            count(&mut self.empty, is_more);
        }
    }

    /// Makes the next step of a chain, and returns the number of the file that was at its slot.
    pub(crate) fn make(&mut self, chain: usize, step: &ClaimStep<'_>) -> u16 {
        self.draw(chain, step.cell, false);
        let before = self.steps.make(&mut self.row, chain, step);
        self.draw(chain, step.cell, true);
        self.count_step(step, false);
        before
    }

    /// Undoes the last step of a chain. `before`: the number of the file that was at its slot.
    pub(crate) fn take_back(&mut self, chain: usize, before: u16) {
        let place = number_at(&self.row, chain).saturating_sub(1);
        let Some(step) = self.steps.step_at(chain, place as usize) else {
            return;
        };
        self.draw(chain, step.cell, false);
        set_number(&mut self.row, chain, place);
        if let Some(cell) = step.cell {
            let at = self.steps.packing.chains.saturating_add(cell);
            set_number(&mut self.row, at, before);
        }
        self.draw(chain, step.cell, true);
        self.count_step(&step, true);
    }
}
