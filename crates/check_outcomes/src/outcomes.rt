//! The reports that a submission can produce, and the answers that a request of it can give, each
//! with an order.
ghost use Rattle.std.specs.Prelude.{◌≡◌, ◌+◌, ◌<◌, ◌≤◌, ◌^◌, ℕ, All, Contains, IfOk, IfSome, IsTrue, Some, length};
ghost use Rattle.check_outcomes.specs.Words.{IsCatalogue, IsAccepted, all_completed, completed_of, all_asked, ring_of_slots, MOST_SLOTS};
ghost use Rattle.check_outcomes.specs.Listed.{IsAnswerIn, IsPossibleIn, IsReportOf, IsRecordedAt, IsRecordedOf, OfEach};
ghost use Rattle.check_outcomes.specs.Outcomes.{HasEachAnswer, HasEachEnd, HasEachReport, IsAnswer, IsPossible};
ghost use Rattle.check_outcomes.specs.Tellings.{all_recorded, answers_of};

use crate::closed::{Claimed, are_all_states};
use crate::explore::explore;
use crate::found::{FoundStates, FoundStep};
use crate::player::{OrderPlay, confirm, play_to};
use crate::state::PlayState;
use crate::submission::PlayedSubmission;
use crate::way_report::are_same as are_same_answers;
use check_search::Limits;
use fx_base::{Catalogue, CloseList, Closed, NoMemory};
use fx_chain::{Completion, Place, Request, cut};
use fx_order::{ChainAccess, Slots};
use fx_ring::Report;
use std::alloc::Global;

/// A report that a submission can produce, an order of its accesses that yields it, and the slots
/// that this order leaves.
#[derive(Drop)]
pub struct PossibleReport {
    /// The report.
    pub report: Report,
    /// The order.
    pub order: Vec<ChainAccess>,
    /// The slots after the submission, if its accesses are made in this order.
    pub slots: Slots,
}

/// The reports that a submission can produce.
#[derive(Drop)]
pub struct PossibleReports {
    /// The reports.
    pub reports: Vec<PossibleReport>,
    /// True if these were shown to be all.
    pub are_all: bool,
    /// The number of states that the search met. No contract says anything of it.
    pub states: usize,
}

// Returns a list of these closes, if each file is in the catalogue.
fn closes_of(
    alloc: Global,
    catalogue: &Catalogue,
    files: &[Closed],
) -> Result<Option<CloseList>, NoMemory>
    ensures files { IfOk result (λ list. IfSome list (λ list. list.files ≡ files.now)) }
    ensures room { IfOk result (λ list. IfSome list (λ list. list.room ≡ 0)) }
    ensures entries { IfOk result (λ list. IfSome list (λ list.
        All (λ file. file.entry < length catalogue.now) list.files)) }
{
    if files.len() > u32::MAX as usize {
        return Ok(None);
    }
    let mut list = CloseList::with_room(alloc, files.len() as u32)?;
    for file in files {
        if u32::from(file.entry) >= catalogue.len() {
            return Ok(None);
        }
        list.close(catalogue.open(file.entry, file.mark, file.tag));
    }
    Ok(Some(list))
}

// Returns the report of an order that begins with the steps up to this one, if it is confirmed.
fn confirmed(
    submission: &PlayedSubmission<'_>,
    slots: &Slots,
    found: &FoundStates,
    by: Option<FoundStep>,
) -> Result<Option<PossibleReport>, NoMemory>
    ensures { IfOk result (λ possible. IfSome possible (IsPossibleIn submission.now slots.now)) }
{
    let alloc = submission.alloc;
    let mut play = OrderPlay {
        order: Vec::new(alloc),
        completions: Vec::new(alloc),
        closes: Vec::new(alloc),
    };
    play_to(submission, slots, found, by, &mut play)?;
    let Some(left) = confirm(submission, slots, &play)? else {
        return Ok(None);
    };
    let Some(closes) = closes_of(alloc, submission.catalogue, &play.closes)? else {
        return Ok(None);
    };
    Ok(Some(PossibleReport {
        report: Report {
            submission: submission.number,
            completions: play.completions,
            closes,
        },
        order: play.order,
        slots: left,
    }))
}

// Returns the reports that a search met and that are confirmed, in the order of the states.
fn all_confirmed(
    submission: &PlayedSubmission<'_>,
    slots: &Slots,
    found: &FoundStates,
) -> Result<Vec<PossibleReport>, NoMemory>
    ensures { IfOk result (λ reports. All (IsPossibleIn submission.now slots.now) reports.items) }
{
    let mut reports = Vec::new(submission.alloc);
    let steps = found.last_steps(submission)?;
    for by in &steps {
        let Some(report) = confirmed(submission, slots, found, *by)? else {
            continue;
        };
        reports.push(report)?;
    }
    Ok(reports)
}

// Checks whether these are the answers of the chains, one chain after another.
fn are_recorded(completions: &[Completion], answers: &[Vec<Completion>]) -> bool
    ensures { IsTrue result → all_completed completions.now ≡ all_recorded (answers_of answers.now) }
{
    let [own, others @ ..] = answers else {
        return completions.is_empty();
    };
    if completions.len() < own.len() {
        return false;
    }
    are_same_answers(&completions[..own.len()], own)
        && are_recorded(&completions[own.len()..], others)
}

// Checks whether a report has the answers and removed files on the way to a state.
fn is_report_of(submission: &PlayedSubmission<'_>, state: &PlayState, report: &Report) -> bool
    ensures { IsTrue result → IsReportOf submission.now state.now report.now }
{
    let way_report = &state.way_report;
    if report.submission != submission.number
        || way_report.answers.len() != submission.chains.len()
    {
        return false;
    }
    are_recorded(&report.completions, &way_report.answers)
        && report.closes.files() == way_report.removed.as_slice()
}

// Checks whether a report leaves the ring of a state, and has its answers and removed files, if the
// submission keeps these.
fn fits_the_report(
    submission: &PlayedSubmission<'_>,
    state: &PlayState,
    possible: &PossibleReport,
) -> bool
    ensures { IsTrue result → IsRecordedOf submission.now state.now possible.now }
{
    if !possible.slots.is_same(&state.slots) {
        return false;
    }
    !submission.with_reports || is_report_of(submission, state, &possible.report)
}

// Checks whether the reports are those of the states in which each chain is idle, in their order.
fn are_all_recorded(
    submission: &PlayedSubmission<'_>,
    states: &[PlayState],
    reports: &[PossibleReport],
) -> bool
    ensures { IsTrue result → All (IsRecordedAt submission.now reports.now) states.now }
{
    let mut number: usize = 0;
    for state in states {
        if !state.is_over(submission) {
            continue;
        }
        let Some(possible) = reports.get(number) else {
            return false;
        };
        if !fits_the_report(submission, state, possible) {
            return false;
        }
        number = number.saturating_add(1);
    }
    true
}

// Returns the reports that a search met, and whether these are all.
fn reports_in(
    submission: &PlayedSubmission<'_>,
    slots: &Slots,
    found: &FoundStates,
) -> Result<PossibleReports, NoMemory>
    ensures each { IfOk result (λ found.
        All (IsPossibleIn submission.now slots.now) found.reports.items) }
    ensures ends { IfOk result (λ found. IsTrue found.are_all → OfEach submission.now slots.now
        (λ old requests. HasEachEnd old requests found.reports.items)) }
    ensures all { IfOk result (λ found. IsTrue found.are_all → IsTrue submission.now.with_reports
        → OfEach submission.now slots.now
        (λ old requests. HasEachReport old requests found.reports.items)) }
{
    let reports = all_confirmed(submission, slots, found)?;
    let claimed = Claimed {
        submission,
        found,
        answers: &[],
    };
    let are_recorded = are_all_recorded(submission, &found.states, &reports);
    let are_all = are_recorded && are_all_states(&claimed, slots)?;
    Ok(PossibleReports {
        reports,
        are_all,
        states: found.states.len(),
    })
}

/// Returns reports that the submission can produce if no allocation fails, starting from `slots`
/// after `submissions` accepted submissions. Each has an order of accesses that yields it. If
/// `are_all` is true, the submission can leave no other slots than those of the reports. If
/// `with_reports` is true as well, it can produce no other report; else reports that leave the same
/// slots count as one. If `are_all` is false, that was not shown within the limits. No request may
/// have a fault ([`fx_chain::check`]).
///
/// # Errors
/// `NoMemory` if an allocation fails.
pub fn may_report(
    alloc: Global,
    catalogue: &Catalogue,
    slots: &Slots,
    submissions: u32,
    requests: &[Request],
    with_reports: bool,
    limits: Limits,
) -> Result<PossibleReports, NoMemory>
    requires catalogue { IsCatalogue catalogue.now }
    requires accepted { IsAccepted (all_asked requests.now) }
    requires few_slots { length slots.now.at.items ≤ MOST_SLOTS }
    requires few { submissions + 1 < 2 ^ 32 }
    ensures each { IfOk result (λ found. (registrations : ℕ) → All (IsPossible
        (ring_of_slots catalogue.now slots.now submissions registrations)
        (all_asked requests.now)) found.reports.items) }
    ensures ends { IfOk result (λ found. IsTrue found.are_all → (registrations : ℕ) → HasEachEnd
        (ring_of_slots catalogue.now slots.now submissions registrations)
        (all_asked requests.now) found.reports.items) }
    ensures all { IfOk result (λ found. IsTrue found.are_all → IsTrue with_reports
        → (registrations : ℕ) → HasEachReport
        (ring_of_slots catalogue.now slots.now submissions registrations)
        (all_asked requests.now) found.reports.items) }
{
    let chains = cut(alloc, requests)?;
    let submission = PlayedSubmission {
        alloc,
        catalogue,
        size: slots.at.len() as u32,
        number: submissions + 1,
        requests,
        chains: &chains,
        with_reports,
        asked: None,
    };
    let found = explore(&submission, slots, limits)?;
    reports_in(&submission, slots, &found)
}

/// An answer of a request, an order of the submission's accesses that yields it, and the slots that
/// this order leaves.
#[derive(Drop)]
pub struct PossibleAnswer {
    /// The answer.
    pub completion: Completion,
    /// The order.
    pub order: Vec<ChainAccess>,
    /// The slots after the submission, if its accesses are made in this order.
    pub slots: Slots,
}

/// The answers that a request can give.
#[derive(Drop)]
pub struct PossibleAnswers {
    /// The answers.
    pub answers: Vec<PossibleAnswer>,
    /// True if these were shown to be all.
    pub are_all: bool,
}

// Returns what is answered at a place.
fn answer_at(completions: &[Completion], place: Place) -> Option<&Completion>
    ensures inside { IfSome result (λ c.
        Contains (all_completed completions.now) (completed_of c.now)) }
    ensures there { IfSome result (λ c. c.now.place ≡ place) }
{
    for c in completions {
        if c.place == place {
            return Some(c);
        }
    }
    None
}

// Returns the answers that a search met and that are confirmed.
fn all_answers(
    submission: &PlayedSubmission<'_>,
    slots: &Slots,
    found: &FoundStates,
    place: Place,
) -> Result<Vec<PossibleAnswer>, NoMemory>
    ensures { IfOk result (λ answers.
        All (IsAnswerIn submission.now slots.now place) answers.items) }
{
    let mut answers = Vec::new(submission.alloc);
    for by in &found.by {
        let Some(possible) = confirmed(submission, slots, found, *by)? else {
            continue;
        };
        let Some(c) = answer_at(&possible.report.completions, place) else {
            continue;
        };
        answers.push(PossibleAnswer {
            completion: c.copy(submission.alloc)?,
            order: possible.order,
            slots: possible.slots,
        })?;
    }
    Ok(answers)
}

// Returns the answers that a search met at the place that the submission asks for, and whether
// these are all.
fn answers_in(
    submission: &PlayedSubmission<'_>,
    slots: &Slots,
    place: Place,
    found: &FoundStates,
) -> Result<PossibleAnswers, NoMemory>
    requires { submission.now.asked ≡ Some place }
    ensures each { IfOk result (λ found.
        All (IsAnswerIn submission.now slots.now place) found.answers.items) }
    ensures all { IfOk result (λ found. IsTrue found.are_all → OfEach submission.now slots.now
        (λ old requests. HasEachAnswer old requests place found.answers.items)) }
{
    let answers = all_answers(submission, slots, found, place)?;
    let claimed = Claimed {
        submission,
        found,
        answers: &answers,
    };
    let are_all = are_all_states(&claimed, slots)?;
    Ok(PossibleAnswers { answers, are_all })
}

/// Returns answers that the request at a place of the submission can give if no allocation fails,
/// starting from `slots` after `submissions` accepted submissions. Each has an order of accesses
/// that yields it. If `are_all` is true, the request can give no other answer. If it is false, that
/// was not shown within the limits. A place without a request has no answer. No request may have a
/// fault ([`fx_chain::check`]).
///
/// # Errors
/// `NoMemory` if an allocation fails.
pub fn may_answer(
    alloc: Global,
    catalogue: &Catalogue,
    slots: &Slots,
    submissions: u32,
    requests: &[Request],
    place: Place,
    limits: Limits,
) -> Result<PossibleAnswers, NoMemory>
    requires catalogue { IsCatalogue catalogue.now }
    requires accepted { IsAccepted (all_asked requests.now) }
    requires few_slots { length slots.now.at.items ≤ MOST_SLOTS }
    requires few { submissions + 1 < 2 ^ 32 }
    ensures each { IfOk result (λ found. (registrations : ℕ) → All (IsAnswer
        (ring_of_slots catalogue.now slots.now submissions registrations)
        (all_asked requests.now) place) found.answers.items) }
    ensures all { IfOk result (λ found. IsTrue found.are_all → (registrations : ℕ) → HasEachAnswer
        (ring_of_slots catalogue.now slots.now submissions registrations)
        (all_asked requests.now) place found.answers.items) }
{
    let chains = cut(alloc, requests)?;
    let submission = PlayedSubmission {
        alloc,
        catalogue,
        size: slots.at.len() as u32,
        number: submissions + 1,
        requests,
        chains: &chains,
        with_reports: false,
        asked: Some(place),
    };
    let found = explore(&submission, slots, limits)?;
    answers_in(&submission, slots, place, &found)
}
