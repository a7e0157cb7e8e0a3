//! The check that a search met all states of a submission.
ghost use Rattle.std.specs.Prelude.{◌<◌};
ghost use Rattle.check_outcomes.specs.Words.{IfOk, IfSome, IsTrue, All, Contains, length, completed_of, Permits, table_of_slots};
ghost use Rattle.check_outcomes.specs.Outcomes.{answered};
ghost use Rattle.check_outcomes.specs.Listed.{AreAllBy, IsExploredBy, IsExploredInTurn, IsStateExploredBy, says};
ghost use Rattle.check_outcomes.specs.Views.{IsTurnAt};

use crate::found::FoundStates;
use crate::outcomes::PossibleAnswer;
use crate::parts::are_parts;
use crate::state::{PlayState, accesses_of, next_state, start};
use crate::submission::PlayedSubmission;
use crate::turns::{ChainTurn, turn_at, waits};
use fx_base::NoMemory;
use fx_chain::{Completion, Place};
use fx_order::{Access, Slots};

// Checks whether a completion is one of these answers.
fn is_answered(answers: &[PossibleAnswer], c: &Completion) -> bool
    ensures { IsTrue result → Contains (answered answers.now) (completed_of c.now) }
{
    for answer in answers {
        if answer.completion == *c {
            return true;
        }
    }
    false
}

// Checks whether what was answered at the place is among the answers.
fn are_listed(place: Option<Place>, answers: &[PossibleAnswer], recorded: &[Completion]) -> bool
    ensures { IsTrue result → All (λ c. says place answers.now (completed_of c)) recorded.now }
{
    recorded
        .iter()
        .all(|c| place != Some(c.place) || is_answered(answers, c))
}

// Checks whether the answers of the chains at the place are among the answers.
fn are_all_listed(
    place: Option<Place>,
    answers: &[PossibleAnswer],
    recorded: &[Vec<Completion>],
) -> bool
    ensures { IsTrue result → All (λ own. All (λ c. says place answers.now (completed_of c))
        own.items) recorded.now }
{
    recorded.iter().all(|own| are_listed(place, answers, own))
}

/// The states of a search, and the answers at the place that is asked for, if there is one.
#[derive(Drop)]
pub(crate) struct Claimed<'a> {
    pub(crate) submission: &'a PlayedSubmission<'a>,
    pub(crate) found: &'a FoundStates,
    pub(crate) answers: &'a [PossibleAnswer],
}

// Checks whether an access, if the table permits it, leads to one of the states, and what is
// answered at the place on the way is among the answers.
fn is_explored(
    claimed: &Claimed<'_>,
    state: &PlayState,
    i: usize,
    access: &Access,
) -> Result<bool, NoMemory>
    ensures { IfOk result (λ yes. IsTrue yes → Permits (table_of_slots state.now.slots) access.now
        → IsExploredBy claimed.now state.now i access.now) }
{
    if !state.slots.permits(access) {
        return Ok(true);
    }
    let mut recorded = Vec::new(claimed.submission.alloc);
    let Some(next) = next_state(claimed.submission, state, i, access, &mut recorded)? else {
        return Ok(false);
    };
    if !are_listed(claimed.submission.asked, claimed.answers, &recorded) {
        return Ok(false);
    }
    claimed.found.has(&next)
}

// Checks whether each of these accesses of a chain that the table permits is explored.
fn are_explored(
    claimed: &Claimed<'_>,
    state: &PlayState,
    i: usize,
    accesses: &[Access],
) -> Result<bool, NoMemory>
    ensures { IfOk result (λ yes. IsTrue yes → All (λ a.
        Permits (table_of_slots state.now.slots) a → IsExploredBy claimed.now state.now i a)
        accesses.now) }
{
    for access in accesses {
        if !is_explored(claimed, state, i, access)? {
            return Ok(false);
        }
    }
    Ok(true)
}

// Checks whether each access that a chain may make next is explored, unless it is idle or has to
// wait for its turn.
fn is_explored_in_turn(
    claimed: &Claimed<'_>,
    state: &PlayState,
    turn: Option<ChainTurn>,
    i: usize,
) -> Result<bool, NoMemory>
    requires inside { i < length claimed.now.submission.now.chains.now }
    requires turn { IfSome turn (IsTurnAt claimed.now.submission.now claimed.now.found.now.numbers
        state.now) }
    ensures { IfOk result (λ yes. IsTrue yes → IsExploredInTurn claimed.now state.now i) }
{
    if waits(&claimed.found.numbers, turn, i) || state.is_idle(claimed.submission, i) {
        return Ok(true);
    }
    let Some(accesses) = accesses_of(claimed.submission, state, i)? else {
        return Ok(false);
    };
    are_explored(claimed, state, i, &accesses)
}

// Checks whether each access is explored that a chain whose turn it is may make in a state.
fn is_state_explored(claimed: &Claimed<'_>, state: &PlayState) -> Result<bool, NoMemory>
    ensures { IfOk result (λ yes. IsTrue yes → IsStateExploredBy claimed.now state.now) }
{
    let turn = turn_at(claimed.submission, &claimed.found.numbers, state);
    for i in 0..claimed.submission.chains.len() {
        if !is_explored_in_turn(claimed, state, turn, i)? {
            return Ok(false);
        }
    }
    Ok(true)
}

// Checks whether all states are explored.
fn are_states_explored(claimed: &Claimed<'_>) -> Result<bool, NoMemory>
    ensures { IfOk result (λ yes. IsTrue yes
        → All (IsStateExploredBy claimed.now) claimed.now.found.now.states.items) }
{
    for state in &claimed.found.states {
        if !is_state_explored(claimed, state)? {
            return Ok(false);
        }
    }
    Ok(true)
}

/// Checks whether a search says that it reached its end, the states that it found are all of the
/// submission at these slots, and what is answered at the place on the way is among the answers.
pub(crate) fn are_all_states(claimed: &Claimed<'_>, slots: &Slots) -> Result<bool, NoMemory>
    ensures { IfOk result (λ yes. IsTrue yes → AreAllBy claimed.now slots.now) }
{
    let submission = claimed.submission;
    let mut recorded = Vec::new(submission.alloc);
    let first = start(submission, slots, &mut recorded)?;
    if !claimed.found.is_whole
        || slots.at.len() != submission.size as usize
        || !are_parts(submission, slots, &claimed.found.numbers)
        || !are_all_listed(submission.asked, claimed.answers, &recorded)
        || !claimed.found.has(&first)?
    {
        return Ok(false);
    }
    are_states_explored(claimed)
}
