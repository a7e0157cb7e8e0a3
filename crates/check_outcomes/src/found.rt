//! The states that a search met.
ghost use Rattle.std.specs.Prelude.{◌≡◌, ◌++◌};
ghost use Rattle.check_outcomes.specs.Words.{ℕ, IfOk, IsTrue, OnOk, Contains, List, map, Asked};
ghost use Rattle.check_outcomes.specs.Tellings.{file_numbers};
ghost use Rattle.check_outcomes.specs.Views.{recorded_state_of, view_of_state};

use crate::parts::PartNumbers;
use crate::state::PlayState;
use crate::submission::PlayedSubmission;
use crate::way_report::WayReport;
use fx_base::{Closed, Mark, NoMemory};
use fx_chain::Completion;
use fx_order::Access;
use indexmap::IndexSet;
use std::alloc::Global;
use std::hash::{FoldHasher, Hasher};

/// An access of a chain, by the chain's number from 0, in a state, by the state's number.
#[derive(Clone, Copy)]
pub struct FoundStep {
    /// The state.
    pub state: usize,
    /// The chain.
    pub chain: usize,
    /// The access.
    pub access: Access,
}

/// The states that a search met, in the order in which it met them, and what was answered on the
/// way at the place that is asked for. Each is a hint, and nothing is proved of it.
#[derive(Drop)]
pub struct FoundStates {
    /// The allocator.
    pub alloc: Global,
    /// The parts of the submission.
    pub numbers: PartNumbers,
    /// The states.
    pub states: Vec<PlayState>,
    /// The states in numbers, for looking them up.
    pub keys: IndexSet<Vec<u32>>,
    /// The step that led to each state; `None` for the first one.
    pub from: Vec<Option<FoundStep>>,
    /// The answers, each once.
    pub answers: Vec<Completion>,
    /// The step that gave each answer; `None` where no access did.
    pub by: Vec<Option<FoundStep>>,
    /// True if all were met, each access of each state followed.
    pub is_whole: bool,
}

/// Appends the numbers of the file at a slot, or 0 for none: each new file has other ones.
///
/// # Errors
/// `NoMemory` if an allocation fails.
pub fn push_file(key: &mut Vec<u32>, file: &Option<Closed>) -> Result<(), NoMemory>
    ensures { OnOk result (key.new.items ≡ key.old.items ++ file_numbers file.now) }
{
    let Some(file) = file else {
        key.push(0)?;
        return Ok(());
    };
    match file.mark {
        Mark::Registered { k, i } => key.extend_from_slice(&[1, k, i])?,
        Mark::Submitted {
            submission,
            chain,
            member,
            entry,
        } => key.extend_from_slice(&[2, submission, chain, member, entry])?,
    }
    Ok(())
}

// Returns a number that is small, as it is.
fn number_of(n: usize) -> u32 {
    n.min(u32::MAX as usize) as u32
}

// Appends the answers as two numbers, and the removed files. If the two numbers of different
// answers are the same by chance, one of two states is left out, and then it is seen that the list
// isn't whole.
fn push_way_report(key: &mut Vec<u32>, way_report: &WayReport) -> Result<(), NoMemory> {
    let mut hasher = FoldHasher::default();
    for own in &way_report.answers {
        hasher.write_usize(own.len());
        for c in own {
            hasher.write_i32(c.res);
            hasher.write_usize(c.got.len());
            hasher.write(&c.got);
        }
    }
    let hash = hasher.finish();
    key.push((hash >> 32) as u32)?;
    key.push((hash % (1 << 32)) as u32)?;
    for file in &way_report.removed {
        push_file(key, &Some(*file))?;
    }
    Ok(())
}

// Returns the largest number of numbers of a state's key: two of each chain, five of a file, and
// one of an empty slot.
fn key_room(state: &PlayState) -> usize {
    let slots = &state.slots.at;
    let at_slots = slots.iter().filter(|file| file.is_some()).count();
    let files = at_slots.saturating_add(state.way_report.removed.len());
    let chains = state.chains.len().saturating_mul(2);
    let beside = chains.saturating_add(slots.len()).saturating_add(2);
    files.saturating_mul(5).saturating_add(beside)
}

/// Returns a state in numbers.
pub(crate) fn key_of(alloc: Global, state: &PlayState) -> Result<Vec<u32>, NoMemory> {
    let mut key = Vec::with_capacity(alloc, key_room(state))?;
    for progress in &state.chains {
        key.push(number_of(progress.done))?;
        key.push(number_of(progress.made))?;
    }
    for file in &state.slots.at {
        push_file(&mut key, file)?;
    }
    push_way_report(&mut key, &state.way_report)?;
    Ok(key)
}

impl FoundStates {
    /// Returns a search without states.
    pub(crate) fn new(alloc: Global, numbers: PartNumbers) -> FoundStates {
        FoundStates {
            alloc,
            numbers,
            states: Vec::new(alloc),
            keys: IndexSet::new(alloc),
            from: Vec::new(alloc),
            answers: Vec::new(alloc),
            by: Vec::new(alloc),
            is_whole: false,
        }
    }

    /// Returns the steps that led to the states in which each chain is idle. Nothing is promised of
    /// it.
    pub(crate) fn last_steps(
        &self,
        submission: &PlayedSubmission<'_>,
    ) -> Result<Vec<Option<FoundStep>>, NoMemory> {
        let mut steps = Vec::new(self.alloc);
        for number in 0..self.states.len().min(self.from.len()) {
            if self.states[number].is_over(submission) {
                steps.push(self.from[number])?;
            }
        }
        Ok(steps)
    }

    /// Checks whether a state is among those that were met.
    pub(crate) fn has(&self, state: &PlayState) -> Result<bool, NoMemory>
        ensures view { IfOk result (λ yes. IsTrue yes → (submission : ℕ) (runs : List (List Asked))
            → Contains (map (view_of_state submission runs) self.now.states.items)
            (view_of_state submission runs state.now)) }
        ensures recorded { IfOk result (λ yes. IsTrue yes → (submission : ℕ) (runs : List (List Asked))
            → Contains (map (recorded_state_of submission runs) self.now.states.items)
            (recorded_state_of submission runs state.now)) }
    {
        let key = key_of(self.alloc, state)?;
        let Some(number) = self.keys.get_index_of(&key) else {
            return Ok(false);
        };
        match self.states.get(number) {
            Some(there) => Ok(there.is_same(state)),
            None => Ok(false),
        }
    }
}
