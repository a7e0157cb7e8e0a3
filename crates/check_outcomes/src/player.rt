//! A play of a submission, access by access, and the check that its order has its results. Nothing
//! is proved of the play.
ghost use Rattle.check_outcomes.specs.Words.{All, IfOk, IfSome, IsTrue, completed_of};
ghost use Rattle.check_outcomes.specs.Rests.{HasMemory};
ghost use Rattle.check_outcomes.specs.Listed.{IsPlayIn};

use crate::found::{FoundStates, FoundStep};
use crate::state::{PlayState, accesses_of, next_state, start};
use crate::submission::PlayedSubmission;
use crate::way_report::sort_by_mark;
use fx_base::{Closed, Errno, NoMemory};
use fx_chain::Completion;
use fx_order::{Access, ChainAccess, Slots, SubmissionReport, slots_left};

// More accesses than a chain may make.
const MOST_ACCESSES: usize = 1 << 16;

/// An order of a submission, and its results.
#[derive(Drop)]
pub(crate) struct OrderPlay {
    /// The order.
    pub(crate) order: Vec<ChainAccess>,
    /// The completions of the requests, in order of place.
    pub(crate) completions: Vec<Completion>,
    /// The files that are closed, in order of mark.
    pub(crate) closes: Vec<Closed>,
}

// Returns the steps that led to a state, and the last one, if there is one.
fn steps_to(
    submission: &PlayedSubmission<'_>,
    found: &FoundStates,
    mut last: Option<FoundStep>,
) -> Result<Vec<FoundStep>, NoMemory> {
    let mut steps = Vec::new(submission.alloc);
    for _ in 0..found.states.len() {
        let Some(step) = last else {
            break;
        };
        steps.push(step)?;
        last = found.from.get(step.state).copied().flatten();
    }
    steps.reverse();
    Ok(steps)
}

/// A play of a submission, access by access: its state, and the answers of each chain.
#[derive(Drop)]
struct Player<'a> {
    submission: &'a PlayedSubmission<'a>,
    state: PlayState,
    recorded: Vec<Vec<Completion>>,
    play: &'a mut OrderPlay,
}

impl Player<'_> {
    // Makes an access, if it may be made.
    fn make(&mut self, chain: usize, access: Access) -> Result<bool, NoMemory> {
        let mut recorded = Vec::new(self.submission.alloc);
        let next = next_state(self.submission, &self.state, chain, &access, &mut recorded)?;
        let Some(next) = next else {
            return Ok(false);
        };
        self.state = next;
        if let Some(own) = self.recorded.get_mut(chain) {
            own.append(&mut recorded)?;
        }
        self.note(chain, access)?;
        Ok(true)
    }

    // Notes an access of a chain, and the file that it removed.
    fn note(&mut self, chain: usize, access: Access) -> Result<(), NoMemory> {
        if let Some(file) = access.removed() {
            self.play.closes.push(file)?;
        }
        self.play.order.push(ChainAccess {
            chain: (chain.min(u32::MAX as usize - 1) + 1) as u32,
            access,
        })?;
        Ok(())
    }

    // Makes the first access that a chain may make next.
    fn make_first(&mut self, chain: usize) -> Result<bool, NoMemory> {
        let Some(accesses) = accesses_of(self.submission, &self.state, chain)? else {
            return Ok(false);
        };
        for access in accesses {
            if self.make(chain, access)? {
                return Ok(true);
            }
        }
        Ok(false)
    }

    // Makes the accesses of these steps, and goes on to the end of each chain, one chain after
    // another.
    fn make_all(&mut self, steps: &[FoundStep]) -> Result<(), NoMemory> {
        for step in steps {
            self.make(step.chain, step.access)?;
        }
        for chain in 0..self.submission.chains.len() {
            for _ in 0..MOST_ACCESSES {
                if !self.make_first(chain)? {
                    break;
                }
            }
        }
        let alloc = self.submission.alloc;
        let recorded = std::mem::replace(&mut self.recorded, Vec::new(alloc));
        for mut own in recorded {
            self.play.completions.append(&mut own)?;
        }
        sort_by_mark(&mut self.play.closes);
        Ok(())
    }
}

/// Makes a play of a submission at these slots that begins with the steps up to this one, and goes
/// on to the end of each chain, one chain after another. `play` is empty at first.
pub(crate) fn play_to(
    submission: &PlayedSubmission<'_>,
    slots: &Slots,
    found: &FoundStates,
    last: Option<FoundStep>,
    play: &mut OrderPlay,
) -> Result<(), NoMemory> {
    let steps = steps_to(submission, found, last)?;
    let mut recorded = Vec::new(submission.alloc);
    let mut player = Player {
        state: start(submission, slots, &mut recorded)?,
        submission,
        recorded,
        play,
    };
    player.make_all(&steps)
}

// Checks whether no request lacked memory.
fn have_memory(completions: &[Completion]) -> bool
    ensures { IsTrue result → All (λ c. HasMemory (completed_of c)) completions.now }
{
    completions.iter().all(|c| c.res != -Errno::ENOMEM.code())
}

/// Returns the slots that a play leaves which begins at these, if its order is one of the
/// submission with these completions and closes, and no allocation fails.
pub(crate) fn confirm(
    submission: &PlayedSubmission<'_>,
    slots: &Slots,
    play: &OrderPlay,
) -> Result<Option<Slots>, NoMemory>
    ensures { IfOk result (λ left. IfSome left (IsPlayIn submission.now slots.now play.now)) }
{
    if slots.at.len() != submission.size as usize
        || submission.number == 0
        || !have_memory(&play.completions)
    {
        return Ok(None);
    }
    let submitted = SubmissionReport {
        catalogue: submission.catalogue,
        submissions: submission.number - 1,
        requests: submission.requests,
        completions: &play.completions,
        closes: &play.closes,
    };
    slots_left(submission.alloc, &submitted, slots, &play.order)
}
