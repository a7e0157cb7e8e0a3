//! The answers and removed files on the way to a state of a submission.
ghost use Rattle.std.specs.Prelude.{◌≡◌, ◌++◌, ◌<◌};
ghost use Rattle.check_outcomes.specs.Words.{[], IfOk, IsPermutation, IsTrue, length, option_to_list, all_completed, file_removed_by};
ghost use Rattle.check_outcomes.specs.Tellings.{IsRecordedOn, answers_of};

use fx_base::{Closed, NoMemory};
use fx_chain::Completion;
use fx_order::Access;
use std::alloc::Global;

/// The answers and the removed files on the way to a state.
#[derive(Drop)]
pub struct WayReport {
    /// The answers of each chain, in order of chains.
    pub answers: Vec<Vec<Completion>>,
    /// The files that were taken from their slots, in order of mark.
    pub removed: Vec<Closed>,
}

/// Checks whether both lists have the same completions, in the same order.
pub(crate) fn are_same(some: &[Completion], others: &[Completion]) -> bool
    ensures { IsTrue result → all_completed some.now ≡ all_completed others.now }
{
    some == others
}

/// Checks whether both lists have the same completions of each chain.
pub(crate) fn are_all_same(some: &[Vec<Completion>], others: &[Vec<Completion>]) -> bool
    ensures { IsTrue result → answers_of some.now ≡ answers_of others.now }
{
    some == others
}

// Adds the same completions at the end.
fn push_copies(
    alloc: Global,
    all: &mut Vec<Completion>,
    more: &[Completion],
) -> Result<(), NoMemory>
    ensures { IfOk result (λ _. all_completed all.new.items
        ≡ all_completed all.old.items ++ all_completed more.now) }
{
    let [c, more @ ..] = more else {
        return Ok(());
    };
    all.push(c.copy(alloc)?)?;
    push_copies(alloc, all, more)
}

/// Adds the same lists at the end.
pub(crate) fn push_lists(
    alloc: Global,
    all: &mut Vec<Vec<Completion>>,
    more: &[Vec<Completion>],
) -> Result<(), NoMemory>
    ensures { IfOk result (λ _. answers_of all.new.items
        ≡ answers_of all.old.items ++ answers_of more.now) }
{
    let [own, more @ ..] = more else {
        return Ok(());
    };
    let mut copy = Vec::with_capacity(alloc, own.len())?;
    push_copies(alloc, &mut copy, own)?;
    all.push(copy)?;
    push_lists(alloc, all, more)
}

/// Puts files in order of mark.
pub(crate) fn sort_by_mark(files: &mut [Closed])
    ensures { IsPermutation files.old files.new }
{
    files.sort_unstable_by_key(|file| file.mark);
}

/// Returns the files that were taken after an access, in order of mark.
///
/// # Errors
/// `NoMemory` if an allocation fails.
pub fn removed_after(
    alloc: Global,
    removed: &[Closed],
    access: &Access,
) -> Result<Vec<Closed>, NoMemory>
    ensures { IfOk result (λ after. IsPermutation
        (removed.now ++ option_to_list (file_removed_by access.now)) after.items) }
{
    let file = access.removed();
    let room = removed.len().saturating_add(usize::from(file.is_some()));
    let mut after = Vec::with_capacity(alloc, room)?;
    after.extend_from_slice(removed)?;
    if let Some(file) = file {
        after.push(file)?;
    }
    sort_by_mark(&mut after);
    Ok(after)
}

impl WayReport {
    /// Nothing yet.
    pub(crate) fn none(alloc: Global) -> WayReport
        ensures answers { result.answers.items ≡ [] }
        ensures removed { result.removed.items ≡ [] }
    {
        WayReport {
            answers: Vec::new(alloc),
            removed: Vec::new(alloc),
        }
    }

    /// Returns the same after an access of a chain, by the chain's number from 0, that answers
    /// this.
    pub(crate) fn after(
        &self,
        alloc: Global,
        i: usize,
        own: &[Completion],
        access: &Access,
    ) -> Result<WayReport, NoMemory>
        requires { i < length self.now.answers.items }
        ensures { IfOk result (IsRecordedOn self.now i access.now (all_completed own.now)) }
    {
        let removed = removed_after(alloc, &self.removed, access)?;
        let mut answers = Vec::with_capacity(alloc, self.answers.len())?;
        push_lists(alloc, &mut answers, &self.answers)?;
        push_copies(alloc, &mut answers[i], own)?;
        Ok(WayReport { answers, removed })
    }
}
