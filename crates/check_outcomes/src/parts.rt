//! The parts of a submission: chains that may access one slot are in one part. The parts are played
//! one after another, so that the states of one aren't met again beside each state of another.
ghost use Rattle.std.specs.Prelude.{◌≡◌, ◌<◌, ◌≤◌};
ghost use Rattle.check_outcomes.specs.Words.{ℕ, All, IsTrue, length, slice_index_or, asked_of, table_of_slots};
ghost use Rattle.check_outcomes.specs.Parts.{StaysIn};
ghost use Rattle.check_outcomes.specs.Views.{ArePartsIn, parts_by_numbers};

use crate::submission::PlayedSubmission;
use fx_base::NoMemory;
use fx_chain::Request;
use fx_order::Slots;

/// The number of the part that each chain is in, the first one first, and of the part that each
/// slot belongs to. Each is a hint, which [`are_parts`] looks at.
#[derive(Drop)]
pub struct PartNumbers {
    /// The parts of the chains.
    pub of_chain: Vec<usize>,
    /// The parts of the slots.
    pub of_slot: Vec<usize>,
}

// Checks whether each slot from one up to another belongs to a part.
fn belong_to(of_slot: &[usize], part: usize, from: usize, to: usize) -> bool
    ensures { IsTrue result → (slot : ℕ) → slot < length of_slot.now → from ≤ slot → slot < to
        → slice_index_or of_slot.now slot 0 ≡ part }
{
    for slot in from..to.min(of_slot.len()) {
        if of_slot[slot] != part {
            return false;
        }
    }
    true
}

// Checks whether a request stays in a part.
fn stays_in(numbers: &PartNumbers, slots: &Slots, part: usize, request: &Request) -> bool
    requires { length slots.now.at.items ≤ length numbers.now.of_slot.items }
    ensures { IsTrue result → StaysIn (table_of_slots slots.now)
        (parts_by_numbers numbers.now).of_slot part (asked_of request.now).operation }
{
    let (from, to) = request.slots(slots.range);
    belong_to(&numbers.of_slot, part, from, to)
}

// Checks whether each of these requests stays in a part.
fn stay_in(numbers: &PartNumbers, slots: &Slots, part: usize, requests: &[Request]) -> bool
    requires { length slots.now.at.items ≤ length numbers.now.of_slot.items }
    ensures { IsTrue result → All (λ r. StaysIn (table_of_slots slots.now)
        (parts_by_numbers numbers.now).of_slot part (asked_of r).operation) requests.now }
{
    requests
        .iter()
        .all(|request| stays_in(numbers, slots, part, request))
}

/// Checks whether each chain of a submission at these slots stays in its part.
pub(crate) fn are_parts(
    submission: &PlayedSubmission<'_>,
    slots: &Slots,
    numbers: &PartNumbers,
) -> bool
    ensures { IsTrue result → ArePartsIn submission.now slots.now numbers.now }
{
    if numbers.of_slot.len() < slots.at.len() {
        return false;
    }
    for i in 0..submission.chains.len() {
        if !stay_in(numbers, slots, numbers.part_of(i), submission.members(i)) {
            return false;
        }
    }
    true
}

// The part of a slot that no request was seen to access.
const NO_PART: usize = usize::MAX;

// Renumbers the part `other` as `part`.
fn rename(numbers: &mut [usize], part: usize, other: usize) {
    for number in numbers {
        if *number == other {
            *number = part;
        }
    }
}

impl PartNumbers {
    /// Returns the part of a chain, by its number from 0.
    pub(crate) fn part_of(&self, i: usize) -> usize
        ensures { result ≡ slice_index_or self.now.of_chain.items i 0 }
    {
        self.of_chain.get(i).copied().unwrap_or(0)
    }

    // Notes that a chain may access a slot: their parts are one.
    fn add(&mut self, i: usize, slot: usize) {
        let (Some(own), Some(other)) = (self.of_chain.get(i), self.of_slot.get(slot)) else {
            return;
        };
        let (own, other) = (*own, *other);
        if other == NO_PART {
            self.of_slot[slot] = own;
        } else if other != own {
            let (part, other) = (own.min(other), own.max(other));
            rename(&mut self.of_chain, part, other);
            rename(&mut self.of_slot, part, other);
        }
    }
}

/// Returns the parts of a submission at these slots, each with the number of its first chain.
pub(crate) fn part_numbers(
    submission: &PlayedSubmission<'_>,
    slots: &Slots,
) -> Result<PartNumbers, NoMemory> {
    let alloc = submission.alloc;
    let mut numbers = PartNumbers {
        of_chain: (0..submission.chains.len()).collect(alloc)?,
        of_slot: vec![in alloc; NO_PART; slots.at.len()]?,
    };
    for i in 0..submission.chains.len() {
        for request in submission.members(i) {
            let (from, to) = request.slots(slots.range);
            for slot in from..to.min(slots.at.len()) {
                numbers.add(i, slot);
            }
        }
    }
    Ok(numbers)
}
