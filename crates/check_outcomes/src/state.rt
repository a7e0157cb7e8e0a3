//! A state of a submission that is played by an order, and where an access leads from it.
ghost use Rattle.std.specs.Prelude.{◌≡◌, ◌<◌, [], IfOk, IfSome, IsTrue, length, slice_index_or};
ghost use Rattle.check_outcomes.specs.Words.{all_completed, is_read, asked_of, list_all, table_of_slots};
ghost use Rattle.check_outcomes.specs.Listed.{IsFirstState};
ghost use Rattle.check_outcomes.specs.Tellings.{IsRecordedOn, answers_of};
ghost use Rattle.check_outcomes.specs.Views.{HasEachNextIn, IsOverIn, IsStepTo, has_reads_at, is_idle_at, not_begun};

use crate::submission::{PlayedSubmission, Progress, chain_accesses, left, settle, step};
use crate::way_report::{WayReport, are_all_same, push_lists};
use fx_base::NoMemory;
use fx_chain::{Completion, Request};
use fx_order::{Access, OrderSetting, Slots};

/// The files at the slots, and how far each chain has come, the first one first.
#[derive(Drop)]
pub struct PlayState {
    /// The slots.
    pub slots: Slots,
    /// The chains.
    pub chains: Vec<Progress>,
    /// The answers and removed files on the way, if the submission keeps them.
    pub way_report: WayReport,
}

// Checks whether each of these requests is a read.
fn are_reads(requests: &[Request]) -> bool
    ensures { result ≡ list_all (λ request. is_read (asked_of request).operation) requests.now }
{
    requests.iter().all(|request| request.is_read())
}

impl PlayState {
    /// Checks whether both are one.
    pub(crate) fn is_same(&self, other: &PlayState) -> bool
        ensures table { IsTrue result
            → table_of_slots self.now.slots ≡ table_of_slots other.now.slots }
        ensures chains { IsTrue result → self.now.chains.items ≡ other.now.chains.items }
        ensures answers { IsTrue result → answers_of self.now.way_report.answers.items
            ≡ answers_of other.now.way_report.answers.items }
        ensures removed { IsTrue result
            → self.now.way_report.removed.items ≡ other.now.way_report.removed.items }
    {
        if !self.slots.is_same(&other.slots) || self.chains != other.chains {
            return false;
        }
        are_all_same(&self.way_report.answers, &other.way_report.answers)
            && self.way_report.removed == other.way_report.removed
    }

    /// Returns how far a chain has come, by its number from 0.
    pub(crate) fn progress(&self, i: usize) -> Progress
        ensures { result ≡ slice_index_or self.now.chains.items i not_begun }
    {
        let not_begun = Progress { done: 0, made: 0 };
        self.chains.get(i).copied().unwrap_or(not_begun)
    }

    /// Checks whether a chain is idle, by its number from 0: no request of it is left, or nothing
    /// but reads, and nobody asks what these answer.
    pub(crate) fn is_idle(&self, submission: &PlayedSubmission<'_>, i: usize) -> bool
        requires { i < length submission.now.chains.now }
        ensures { result ≡ is_idle_at submission.now self.now i }
    {
        let progress = self.progress(i);
        let left = left(submission.members(i), progress.done);
        if left.is_empty() {
            return true;
        }
        if submission.with_reports {
            return false;
        }
        are_reads(left) && !submission.asks_after(i, progress.done)
    }

    /// Checks whether nothing but reads is left of a chain, by its number from 0.
    pub(crate) fn has_reads_left(&self, submission: &PlayedSubmission<'_>, i: usize) -> bool
        requires { i < length submission.now.chains.now }
        ensures { result ≡ has_reads_at submission.now self.now i }
    {
        are_reads(left(submission.members(i), self.progress(i).done))
    }

    /// Checks whether each chain is idle.
    pub(crate) fn is_over(&self, submission: &PlayedSubmission<'_>) -> bool
        ensures { IsOverIn submission.now self.now → IsTrue result }
    {
        for i in 0..submission.chains.len() {
            if !self.is_idle(submission, i) {
                return false;
            }
        }
        true
    }
}

/// Returns the first state of a submission at these slots. Appends what each chain answers there.
pub(crate) fn start(
    submission: &PlayedSubmission<'_>,
    slots: &Slots,
    recorded: &mut Vec<Vec<Completion>>,
) -> Result<PlayState, NoMemory>
    requires { recorded.old.items ≡ [] }
    ensures { IfOk result (IsFirstState submission.now slots.now recorded.new.items) }
{
    let alloc = submission.alloc;
    let setting = OrderSetting {
        alloc,
        catalogue: submission.catalogue,
        size: submission.size,
    };
    let mut chains = Vec::new(alloc);
    for i in 0..submission.chains.len() {
        let own = submission.members(i);
        let mut answers = Vec::new(alloc);
        let done = settle(&setting, submission.first(i), own, &mut answers)?;
        chains.push(Progress { done, made: 0 })?;
        recorded.push(answers)?;
    }
    let slots = slots.copy(alloc)?;
    let mut way_report = WayReport::none(alloc);
    if submission.with_reports {
        push_lists(alloc, &mut way_report.answers, recorded)?;
    }
    Ok(PlayState {
        slots,
        chains,
        way_report,
    })
}

// Returns the answers and removed files after an access of a chain, by the chain's number from 0,
// that answers this: none, if the submission doesn't keep them.
fn way_report_after(
    submission: &PlayedSubmission<'_>,
    way_report: &WayReport,
    i: usize,
    own: &[Completion],
    access: &Access,
) -> Result<Option<WayReport>, NoMemory>
    ensures { IfOk result (λ after. IfSome after (λ after. IsTrue submission.now.with_reports
        → IsRecordedOn way_report.now i access.now (all_completed own.now) after)) }
{
    let alloc = submission.alloc;
    if !submission.with_reports {
        return Ok(Some(WayReport::none(alloc)));
    }
    if i >= way_report.answers.len() {
        return Ok(None);
    }
    let after = way_report.after(alloc, i, own, access)?;
    Ok(Some(after))
}

/// Returns where an access of a chain leads, by the chain's number from 0, and what is answered on
/// the way; `None` where the state isn't one of the submission, or its table doesn't permit the
/// access.
pub(crate) fn next_state(
    submission: &PlayedSubmission<'_>,
    state: &PlayState,
    i: usize,
    access: &Access,
    recorded: &mut Vec<Completion>,
) -> Result<Option<PlayState>, NoMemory>
    requires { recorded.old.items ≡ [] }
    ensures step { IfOk result (λ next. IfSome next (IsStepTo submission.now state.now i access.now
        (all_completed recorded.new.items))) }
    ensures recorded { IfOk result (λ next. IfSome next (λ next. IsTrue submission.now.with_reports
        → IsRecordedOn state.now.way_report i access.now (all_completed recorded.new.items) next.way_report)) }
{
    let alloc = submission.alloc;
    if state.slots.at.len() != submission.size as usize || !state.slots.permits(access) {
        return Ok(None);
    }
    let Some(progress) = state.chains.get(i) else {
        return Ok(None);
    };
    if i >= submission.chains.len() || progress.made > u32::MAX as usize {
        return Ok(None);
    }
    let own = submission.members(i);
    let place = submission.first(i);
    let setting = OrderSetting {
        alloc,
        catalogue: submission.catalogue,
        size: submission.size,
    };
    let after = step(&setting, place, own, *progress, *access, recorded)?;
    let mut chains = Vec::from_slice(alloc, &state.chains)?;
    chains[i] = after;
    let mut slots = state.slots.copy(alloc)?;
    slots.make(access);
    let Some(way_report) = way_report_after(submission, &state.way_report, i, recorded, access)?
    else {
        return Ok(None);
    };
    Ok(Some(PlayState {
        slots,
        chains,
        way_report,
    }))
}

/// Returns each access that a chain may make next in a state and the table permits, by the chain's
/// number from 0, and perhaps others; `None` where the state isn't one of the submission.
pub(crate) fn accesses_of(
    submission: &PlayedSubmission<'_>,
    state: &PlayState,
    i: usize,
) -> Result<Option<Vec<Access>>, NoMemory>
    ensures { IfOk result (λ accesses. IfSome accesses (HasEachNextIn submission.now state.now i)) }
{
    if state.slots.at.len() != submission.size as usize || i >= submission.chains.len() {
        return Ok(None);
    }
    let (first, own) = (submission.first(i), submission.members(i));
    let setting = OrderSetting {
        alloc: submission.alloc,
        catalogue: submission.catalogue,
        size: submission.size,
    };
    let accesses = chain_accesses(&setting, &state.slots, first, own, state.progress(i))?;
    Ok(Some(accesses))
}
