//! Replaying an order of a submission's requests, access by access.
ghost use Rattle.fx_order.specs.Words.{ℕ, IfNone, IfOk, IfSome, IsTrue, IsPermutation, length, slice_index_or, Closed as File};
ghost use Rattle.std.specs.Prelude.{◌≡◌, ◌<◌, ◌↔◌, ◌≢◌};
ghost use Rattle.fx_base.specs.CloseList.{IsInOrderOfMark};
ghost use Rattle.fx_order.specs.Access.{PermitsAll, table_after, accesses_of, accesses_of_chain, files_removed_in};
ghost use Rattle.fx_order.specs.Slots.{table_of_slots};

use crate::access::{Access, ChainAccess};
use crate::slots::Slots;
use fx_base::{Closed, NoMemory};
use std::alloc::Global;

/// Makes the accesses of an order, one after another, and returns whether each was permitted. If
/// one isn't, those before it are made and no later one is.
pub fn make_all(slots: &mut Slots, order: &[ChainAccess]) -> bool
    ensures permitted { IsTrue result
        ↔ PermitsAll (table_of_slots slots.old) (accesses_of order.now) }
    ensures made { IsTrue result → table_of_slots slots.new
        ≡ table_after (table_of_slots slots.old) (accesses_of order.now) }
{
    for x in order {
        if !slots.permits(&x.access) {
            return false;
        }
        slots.make(&x.access);
    }
    true
}

/// Returns the accesses of one chain, in order.
///
/// # Errors
/// `NoMemory` if an allocation for the list fails.
pub(crate) fn accesses_of_chain(
    alloc: Global,
    chain: u32,
    order: &[ChainAccess],
) -> Result<Vec<Access>, NoMemory>
    ensures { IfOk result (λ accesses. accesses.items ≡ accesses_of_chain chain order.now) }
{
    let own = order.iter().filter(|x| x.chain == chain);
    Ok(own.map(|x| x.access).collect(alloc)?)
}

// Returns the files that the accesses took from their slots, in order.
fn removed_in(alloc: Global, order: &[ChainAccess]) -> Result<Vec<Closed>, NoMemory>
    ensures { IfOk result (λ files. files.items ≡ files_removed_in (accesses_of order.now)) }
{
    let mut files = Vec::new(alloc);
    for x in order {
        if let Some(file) = x.access.removed() {
            files.push(file)?;
        }
    }
    Ok(files)
}

// Returns a position of a file in a list, the last one that it has, or `None`.
fn place_of(files: &[Closed], file: Closed) -> Option<usize>
    ensures some { IfSome result (λ i. (i < length files.now)
        × (slice_index_or files.now i file ≡ file)) }
    ensures none { IfNone result ((i : ℕ) (d : File) → i < length files.now
        → slice_index_or files.now i d ≢ file) }
{
    let last = files.len().saturating_sub(1);
    if last < files.len() && files[last] == file {
        return Some(last);
    }
    files.iter().position(|other| *other == file)
}

// Returns the same files, the one with the last mark first.
fn last_first(alloc: Global, files: &[Closed]) -> Result<Vec<Closed>, NoMemory>
    ensures { IfOk result (λ left. IsPermutation files.now left.items) }
{
    let mut left = Vec::from_slice(alloc, files)?;
    left.sort_unstable_by(|one, other| other.mark.cmp(&one.mark));
    Ok(left)
}

// Checks whether both lists have the same files, each the same number of times. If the others are
// in order of mark, each is the last one of those that are left.
fn has_same_files(alloc: Global, files: &[Closed], others: &[Closed]) -> Result<bool, NoMemory>
    ensures { IfOk result (λ yes. IsTrue yes ↔ IsPermutation files.now others.now) }
{
    let mut left = last_first(alloc, files)?;
    for file in others {
        let Some(i) = place_of(&left, *file) else {
            return Ok(false);
        };
        left.remove(i);
    }
    Ok(left.is_empty())
}

// Checks whether the files are in order of mark.
fn is_in_order(files: &[Closed]) -> bool
    ensures { IsTrue result ↔ IsInOrderOfMark files.now }
{
    for i in 1..files.len() {
        if files[i].mark.cmp(&files[i - 1].mark).is_lt() {
            return false;
        }
    }
    true
}

/// Checks whether these closes are the files that the accesses took from their slots, in order of
/// mark.
///
/// # Errors
/// `NoMemory` if an allocation for a list of the files fails.
pub fn are_closed(alloc: Global, order: &[ChainAccess], closes: &[Closed]) -> Result<bool, NoMemory>
    ensures { IfOk result (λ yes. IsTrue yes
        ↔ (IsPermutation (files_removed_in (accesses_of order.now)) closes.now
        × IsInOrderOfMark closes.now)) }
{
    let files = removed_in(alloc, order)?;
    if !is_in_order(closes) {
        return Ok(false);
    }
    has_same_files(alloc, &files, closes)
}
