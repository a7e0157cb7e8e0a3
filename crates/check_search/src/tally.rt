//! The claims of a slot that are still to be made, counted as a search goes. Nothing is promised of
//! it.

use crate::cell::{may_find, may_leave, may_stay};
use crate::claim::{Claim, Condition, Leaves, Resident};
use crate::node::is_test;
use crate::steps::{ClaimAt, ClaimStep, MOST_CLAIMS};
use fx_base::NoMemory;
use std::alloc::Global;

// Claims that may be made with the same files.
#[derive(Clone, Copy)]
struct Class<'a> {
    // One of them.
    claim: &'a Claim,
    // The number of these that are still to be made.
    left: usize,
    // The number of claims, still to be made, that leave a file or an empty slot with which these
    // may be made.
    helpers: usize,
}

/// The claims of a slot that are still to be made.
#[derive(Drop)]
pub struct Tally<'a> {
    /// All claims of the slot, those of the first chain first.
    pub(crate) places: Vec<ClaimAt>,
    classes: Vec<Class<'a>>,
    // The number of claims that take a file.
    takes: usize,
    // The number of claims that empty the slot.
    empties: usize,
    // The number of claims that install a file which is in the list of closes.
    leaving: usize,
    // The number of claims that install a file which isn't in that list.
    staying: usize,
    /// The bits of the claims that were made.
    pub(crate) made: u64,
}

// Checks whether both may be made with the same files.
fn is_alike(one: &Claim, other: &Claim) -> bool {
    match (one, other) {
        (Claim::At(_, condition, _), Claim::At(_, others, _)) => {
            condition == others && is_test(one) == is_test(other)
        }
        _ => false,
    }
}

/// Adds one to a number, or subtracts one.
pub(crate) fn count(number: &mut usize, is_more: bool) {
    *number = if is_more {
        number.saturating_add(1)
    } else {
        number.saturating_sub(1)
    };
}

impl<'a> Tally<'a> {
    /// Returns a tally without claims.
    pub fn new(alloc: Global) -> Tally<'a> {
        Tally {
            places: Vec::new(alloc),
            classes: Vec::new(alloc),
            takes: 0,
            empties: 0,
            leaving: 0,
            staying: 0,
            made: 0,
        }
    }

    /// Returns a copy, without the places of the claims.
    pub fn copy(&self, alloc: Global) -> Result<Tally<'a>, NoMemory> {
        Ok(Tally {
            classes: Vec::from_slice(alloc, &self.classes)?,
            places: Vec::new(alloc),
            ..*self
        })
    }

    // Returns the number of the class of a claim.
    fn class_of(&mut self, claim: &'a Claim) -> Result<usize, NoMemory> {
        let known = self
            .classes
            .iter()
            .position(|class| is_alike(class.claim, claim));
        if let Some(class) = known {
            return Ok(class);
        }
        let count = self.classes.len();
        self.classes.push(Class {
            claim,
            left: 0,
            helpers: 0,
        })?;
        Ok(count)
    }

    /// Adds the claim of a step, which it doesn't count, and sets the step's class and bit.
    pub(crate) fn add(&mut self, step: &mut ClaimStep<'a>, at: ClaimAt) -> Result<(), NoMemory> {
        let before = self.places.len();
        step.bit = if before < MOST_CLAIMS { 1 << before } else { 0 };
        step.class = self.class_of(step.claim)?;
        self.places.push(at)?;
        Ok(())
    }

    /// Counts the claim of a step as still to be made, or as made.
    pub(crate) fn count_claim(&mut self, step: &ClaimStep<'_>, is_more: bool) {
        if step.class < self.classes.len() {
            count(&mut self.classes[step.class].left, is_more);
        }
        let Claim::At(_, condition, leaves) = step.claim else {
            return;
        };
        let left = match leaves {
            Leaves::Same => return,
            Leaves::Empty => {
                count(&mut self.empties, is_more);
                if matches!(condition, Condition::Something) {
                    count(&mut self.takes, is_more);
                }
                None
            }
            Leaves::File(file) => {
                if file.leaves {
                    count(&mut self.leaving, is_more);
                } else {
                    count(&mut self.staying, is_more);
                }
                Some(*file)
            }
        };
        for class in self.classes.iter_mut() {
            if may_find(class.claim, left) {
                count(&mut class.helpers, is_more);
            }
        }
    }

    // Checks whether a claim waits for a file that is never installed, if `found` is at the slot
    // ([`crate::dead`]).
    fn is_hopeless(&self, found: Option<Resident>) -> bool {
        let stays = !may_leave(found);
        self.classes.iter().any(|class| {
            class.left > 0 && (stays || class.helpers == 0) && !may_find(class.claim, found)
        })
    }

    /// Checks whether these counts show that no order of the claims leads to an end, if `found` is
    /// at the slot: the files don't balance ([`crate::dead`]), or a claim waits.
    pub fn is_dead(&self, found: Option<Resident>) -> bool {
        let leaving = self.leaving.saturating_add(usize::from(!may_stay(found)));
        let staying = self.staying.saturating_add(usize::from(!may_leave(found)));
        staying > 1
            || leaving < self.takes
            || (self.empties == 0 && staying == 0 && leaving > 0)
            || self.is_hopeless(found)
    }
}
