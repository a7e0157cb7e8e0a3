//! Turns: the parts of a submission are played one after another. If nothing but reads is left of a
//! part, so are its chains, since reads commute.
ghost use Rattle.std.specs.Prelude.{◌≡◌, IfSome, IsTrue, Some};
ghost use Rattle.check_outcomes.specs.Views.{HasReadsAloneIn, IsTurnAt, IsTurnOfPart, IsTurnOfReader, Waits};

use crate::parts::PartNumbers;
use crate::state::PlayState;
use crate::submission::PlayedSubmission;

// Returns the part whose turn it is in a state: the first one with a chain that isn't idle; `None`
// if each chain is idle.
fn part_at(
    submission: &PlayedSubmission<'_>,
    numbers: &PartNumbers,
    state: &PlayState,
) -> Option<usize>
    ensures { IfSome result (IsTurnOfPart submission.now numbers.now state.now) }
{
    let mut turn: Option<usize> = None;
    for i in 0..submission.chains.len() {
        let own = numbers.part_of(i);
        let is_later = matches!(turn, Some(part) if part <= own);
        if state.is_idle(submission, i) || is_later {
            continue;
        }
        turn = Some(own);
    }
    turn
}

// Checks whether nothing but reads is left of each chain of a part.
fn has_reads_alone(
    submission: &PlayedSubmission<'_>,
    numbers: &PartNumbers,
    state: &PlayState,
    part: usize,
) -> bool
    ensures { IsTrue result → HasReadsAloneIn submission.now numbers.now state.now part }
{
    for i in 0..submission.chains.len() {
        if numbers.part_of(i) == part && !state.has_reads_left(submission, i) {
            return false;
        }
    }
    true
}

// Returns the chain that has its turn if nothing but reads is left of a part: its first chain that
// isn't idle.
fn reader_at(
    submission: &PlayedSubmission<'_>,
    numbers: &PartNumbers,
    state: &PlayState,
    part: usize,
) -> Option<usize>
    ensures { IfSome result (IsTurnOfReader submission.now numbers.now state.now part) }
{
    if !has_reads_alone(submission, numbers, state, part) {
        return None;
    }
    for i in 0..submission.chains.len() {
        if numbers.part_of(i) == part && !state.is_idle(submission, i) {
            return Some(i);
        }
    }
    None
}

/// The part whose turn it is in a state, and the chain if nothing but reads is left of the part.
#[derive(Clone, Copy)]
pub(crate) struct ChainTurn {
    /// The part.
    pub(crate) part: usize,
    /// The only chain of the part that has its turn; `None` if more than reads are left.
    pub(crate) reader: Option<usize>,
}

/// Returns whose turn it is in a state; `None` if each chain is idle.
pub(crate) fn turn_at(
    submission: &PlayedSubmission<'_>,
    numbers: &PartNumbers,
    state: &PlayState,
) -> Option<ChainTurn>
    ensures { IfSome result (IsTurnAt submission.now numbers.now state.now) }
{
    let part = part_at(submission, numbers, state)?;
    let reader = reader_at(submission, numbers, state, part);
    Some(ChainTurn { part, reader })
}

/// Checks whether a chain has to wait for its turn, by its number from 0.
pub(crate) fn waits(numbers: &PartNumbers, turn: Option<ChainTurn>, i: usize) -> bool
    ensures { IsTrue result → (own : ChainTurn) × (turn ≡ Some own) × Waits numbers.now own i }
{
    let Some(turn) = turn else {
        return false;
    };
    let own = numbers.part_of(i);
    if own != turn.part {
        return turn.part < own;
    }
    match turn.reader {
        Some(reader) => reader < i,
        None => false,
    }
}
