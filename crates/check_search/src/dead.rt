//! States from which no end is reached: the files that are installed at a slot and leave it don't
//! balance, or a claim waits for a file that is never installed.
ghost use Rattle.std.specs.Prelude.{◌≡◌, ◌≤◌};
ghost use Rattle.check_search.specs.Words.{IfSome, IsTrue, cond, count_by, drop, ℕ, Some, true, slice_get, Claim as OneClaim};
ghost use Rattle.check_search.specs.Counted.{IsUneven, changes, is_change, leaving_files, staying_files, to_come};
ghost use Rattle.check_search.specs.Machine.{HasNoEnd, view};
ghost use Rattle.check_search.specs.Dead.{IsHopeless, NoneHelps, no_help};

use crate::cell::{cell_at, may_find, may_leave, may_stay};
use crate::claim::{Claim, Condition, Leaves, Strand, has_slot};
use crate::node::{SearchNode, place_of};

/// A change that a claim makes to its slot.
#[derive(Clone, Copy)]
pub enum SlotChange {
    /// The file that is there is taken.
    Takes,
    /// The slot is emptied, whether it has a file or not.
    Empties,
    /// A file is installed that is in the list of closes.
    Leaving,
    /// A file is installed that is not in the list of closes.
    Staying,
}

// Checks whether what a claim leaves at its slot is such a change.
fn is_change(leaves: &Leaves, condition: &Condition, change: SlotChange) -> bool
    ensures { result ≡ is_change leaves.now condition.now change }
{
    match (leaves, change) {
        (Leaves::Empty, SlotChange::Takes) => matches!(condition, Condition::Something),
        (Leaves::Empty, SlotChange::Empties) => true,
        (Leaves::File(file), SlotChange::Leaving) => file.leaves,
        (Leaves::File(file), SlotChange::Staying) => !file.leaves,
        _ => false,
    }
}

/// Checks whether a claim makes such a change of a slot.
pub(crate) fn is_changing(change: SlotChange, slot: u32, claim: &Claim) -> bool
    ensures { result ≡ changes change slot claim.now }
{
    match claim {
        Claim::At(at, condition, leaves) => *at == slot && is_change(leaves, condition, change),
        Claim::Full => false,
    }
}

// 1 for yes, and 0 for no.
fn one_if(yes: bool) -> usize
    ensures number { result ≡ cond yes 1 0 }
    ensures few { result ≤ 1 }
{
    if yes { 1 } else { 0 }
}

// Returns the number of claims with this change from a place on.
fn count_from(change: SlotChange, slot: u32, claims: &[Claim], first: usize) -> usize
    ensures { result ≡ count_by (changes change slot) (drop first claims.now) }
{
    let later = claims.iter().skip(first);
    later
        .filter(|claim| is_changing(change, slot, claim))
        .count()
}

// Returns the number of claims with this change that are still to be made, or `None` if it exceeds
// `usize`.
fn to_come(change: SlotChange, slot: u32, strands: &[Strand], places: &[usize]) -> Option<usize>
    ensures { IfSome result (λ count. count ≡ to_come change slot strands.now places.now) }
{
    let mut count = 0usize;
    for c in 0..strands.len() {
        let own = count_from(change, slot, &strands[c].claims, place_of(places, c));
        count = count.checked_add(own)?;
    }
    Some(count)
}

// Returns the number of files that leave a slot: the one that is there, and those to come.
fn leaving(strands: &[Strand], node: &SearchNode, slot: u32) -> Option<usize>
    ensures { IfSome result (λ count. count ≡ leaving_files strands.now (view node.now) slot) }
{
    let here = one_if(!may_stay(cell_at(&node.cells, slot)));
    here.checked_add(to_come(SlotChange::Leaving, slot, strands, &node.places)?)
}

// Returns the number of files that stay at a slot: the one that is there, and those to come.
fn staying(strands: &[Strand], node: &SearchNode, slot: u32) -> Option<usize>
    ensures { IfSome result (λ count. count ≡ staying_files strands.now (view node.now) slot) }
{
    let here = one_if(!may_leave(cell_at(&node.cells, slot)));
    here.checked_add(to_come(SlotChange::Staying, slot, strands, &node.places)?)
}

// Checks whether the files of a slot don't balance: two of them stay there, or more are taken than
// leave, or each must leave and no claim is left that removes the last one.
fn shows_uneven(strands: &[Strand], node: &SearchNode, slot: u32) -> Option<bool>
    ensures { IfSome result (λ yes. IsTrue yes → IsUneven strands.now (view node.now) slot) }
{
    let (stay, leave) = (staying(strands, node, slot)?, leaving(strands, node, slot)?);
    let takes = to_come(SlotChange::Takes, slot, strands, &node.places)?;
    let empties = to_come(SlotChange::Empties, slot, strands, &node.places)?;
    Some(stay >= 2 || leave < takes || (empties == 0 && stay == 0 && leave >= 1))
}

/// Checks whether the files of `slot` don't balance, so that no order leads to an end.
pub fn is_uneven(strands: &[Strand], node: &SearchNode, slot: u32) -> bool
    ensures { IsTrue result → HasNoEnd strands.now (view node.now) }
{
    if node.places.len() != strands.len() || !has_slot(&node.cells, slot) {
        return false;
    }
    let Some(yes) = shows_uneven(strands, node, slot) else {
        return false;
    };
    yes
}

/// Checks whether another claim changes nothing at a slot, or leaves there what the claim may not
/// be made with.
pub(crate) fn is_no_help(slot: u32, claim: &Claim, other: &Claim) -> bool
    ensures { result ≡ no_help slot claim.now other.now }
{
    match other {
        Claim::At(at, _, Leaves::Empty) => *at != slot || !may_find(claim, None),
        Claim::At(at, _, Leaves::File(file)) => *at != slot || !may_find(claim, Some(*file)),
        Claim::At(_, _, Leaves::Same) | Claim::Full => true,
    }
}

// Checks whether none of the claims from a place on helps.
fn none_helps_from(slot: u32, claim: &Claim, claims: &[Claim], first: usize) -> bool
    ensures { IsTrue result → ((k : ℕ) (other : OneClaim) → first ≤ k
        → slice_get claims.now k ≡ Some other → no_help slot claim.now other ≡ true) }
{
    for k in first..claims.len() {
        if !is_no_help(slot, claim, &claims[k]) {
            return false;
        }
    }
    true
}

// Checks whether no claim that is still to be made helps.
fn none_helps(strands: &[Strand], places: &[usize], slot: u32, claim: &Claim) -> bool
    ensures { IsTrue result → NoneHelps strands.now places.now slot claim.now }
{
    for c in 0..strands.len() {
        if !none_helps_from(slot, claim, &strands[c].claims, place_of(places, c)) {
            return false;
        }
    }
    true
}

// Checks whether a claim can't be made with the file found at its slot, and that file stays, or no
// other claim helps.
fn is_hopeless(strands: &[Strand], node: &SearchNode, slot: u32, claim: &Claim) -> bool
    ensures { IsTrue result → IsHopeless strands.now (view node.now) slot claim.now }
{
    let found = cell_at(&node.cells, slot);
    !may_find(claim, found) && (!may_leave(found) || none_helps(strands, &node.places, slot, claim))
}

/// Checks whether the claim at `at`, by its chain and its place, is still to be made and waits for
/// a file that is never installed.
pub fn is_dead_by(strands: &[Strand], node: &SearchNode, at: Option<(usize, usize)>) -> bool
    ensures { IsTrue result → HasNoEnd strands.now (view node.now) }
{
    let Some((chain, k)) = at else {
        return false;
    };
    let Some(strand) = strands.get(chain) else {
        return false;
    };
    let Some(claim) = strand.claims.get(k) else {
        return false;
    };
    let Claim::At(slot, _, _) = claim else {
        return false;
    };
    if k < place_of(&node.places, chain) {
        return false;
    }
    is_hopeless(strands, node, *slot, claim)
}
