//! A state of the flights of a log.
ghost use Rattle.check_flight.specs.Words.{ℕ, Contains, IfOk, IsTrue, length, slice_index_or, not_begun, run_at};
ghost use Rattle.std.specs.Prelude.{◌≡◌, ◌+◌, ◌<◌, ◌≤◌, ◌^◌};
ghost use Rattle.check_flight.specs.Judged.{IsCopy, IsInitialState, IsWaitDenied, runs_of_calls, flight_view};
ghost use Rattle.check_flight.specs.States.{AreFewer, AreWithout};

use crate::call::members_at;
use crate::judged::{ChainCall, JudgedLog};
use check_outcomes::Progress;
use fx_base::{Closed, NoMemory};
use fx_order::Slots;
use std::alloc::Global;

/// A look that has made no access and isn't answered.
#[derive(Clone, Copy, PartialEq, Eq)]
pub(crate) struct WaitingLook {
    /// The number of the call.
    pub(crate) id: u32,
    /// The slot.
    pub(crate) slot: u32,
}

/// A state of the flights of a log.
#[derive(Drop)]
pub(crate) struct FlightState {
    /// The files at the slots.
    pub(crate) slots: Slots,
    /// The number of first calls that are over, and aren't in the list.
    pub(crate) base: usize,
    /// The progress of each later call, the first one first.
    pub(crate) chains: Vec<Progress>,
    /// The files that were taken from their slots and aren't known to be closed, in order of mark.
    pub(crate) removed: Vec<Closed>,
    /// The looks that wait, in the order of their calls. A look makes its access as soon as it
    /// finds its answer.
    pub(crate) waiting: Vec<WaitingLook>,
}

/// Takes a file from a list.
pub(crate) fn remove_file(files: &mut Vec<Closed>, file: Closed)
    ensures others { AreWithout files.old.items file files.new.items }
    ensures gone { Contains files.new.items file → ⊥ }
{
    files.retain(|other| *other != file);
}

/// Checks whether a look still waits in a table with these slots: it finds what isn't its answer in
/// the log. Past the size it finds no file.
pub(crate) fn waits(log: &JudgedLog<'_>, slots: &Slots, look: &WaitingLook) -> bool
    ensures { IsTrue result → IsWaitDenied log.now slots.now look.now }
{
    let found = match slots.at.get(look.slot as usize) {
        Some(found) => *found,
        None => None,
    };
    log.is_look_denied(look.id, found)
}

/// Returns the looks that still wait in a table with these slots.
pub(crate) fn still_waiting(
    log: &JudgedLog<'_>,
    slots: &Slots,
    waiting: &[WaitingLook],
) -> Result<Vec<WaitingLook>, NoMemory>
    ensures { IfOk result (λ after. AreFewer waiting.now after.items) }
{
    let mut after = Vec::new(log.setting.alloc);
    for look in waiting {
        if waits(log, slots, look) {
            after.push(*look)?;
        }
    }
    Ok(after)
}

impl FlightState {
    /// Checks whether both are one.
    pub(crate) fn is_same(&self, other: &FlightState) -> bool
        ensures { IsTrue result → IsCopy other.now other.now.base 0 self.now }
    {
        if !self.slots.is_same(&other.slots) || self.chains != other.chains {
            return false;
        }
        if self.waiting != other.waiting {
            return false;
        }
        self.base == other.base && self.removed == other.removed
    }

    /// Returns a copy without the first `count` calls of the list, after `base` calls that are
    /// over.
    pub(crate) fn copy(
        &self,
        alloc: Global,
        base: usize,
        count: usize,
    ) -> Result<FlightState, NoMemory>
        requires { count ≤ length self.now.chains.items }
        ensures { IfOk result (IsCopy self.now base count) }
    {
        let slots = self.slots.copy(alloc)?;
        let chains = Vec::from_slice(alloc, &self.chains[count..])?;
        let removed = Vec::from_slice(alloc, &self.removed)?;
        let waiting = Vec::from_slice(alloc, &self.waiting)?;
        Ok(FlightState {
            slots,
            base,
            chains,
            removed,
            waiting,
        })
    }

    /// Returns the progress of the call that follows those that are over and `j` others.
    pub(crate) fn progress(&self, j: usize) -> Progress
        ensures { result ≡ slice_index_or self.now.chains.items j not_begun }
    {
        match self.chains.get(j) {
            Some(progress) => *progress,
            None => Progress { done: 0, made: 0 },
        }
    }
}

/// Returns the state before the first event.
pub(crate) fn first_state(alloc: Global, slots: &Slots) -> Result<FlightState, NoMemory>
    ensures { IfOk result (IsInitialState slots.now) }
{
    Ok(FlightState {
        slots: slots.copy(alloc)?,
        base: 0,
        chains: Vec::new(alloc),
        removed: Vec::new(alloc),
        waiting: Vec::new(alloc),
    })
}

// Returns the number of calls that are over, from the first one in the list on.
fn count_over(calls: &[ChainCall<'_>], state: &FlightState) -> usize
    ensures within { result ≤ length state.now.chains.items }
    ensures fits { state.now.base + result < 2 ^ 64 }
    ensures over { (j : ℕ) → j < result
        → length (run_at (runs_of_calls calls.now) (state.now.base + j + 1))
        ≤ (slice_index_or state.now.chains.items j not_begun).done }
{
    let most = calls.len().saturating_sub(state.base);
    let most = most.min(state.chains.len());
    for j in 0..most {
        if state.progress(j).done < members_at(calls, state.base + j).len() {
            return j;
        }
    }
    most
}

/// Returns the same state, without the first calls that are over.
pub(crate) fn trimmed(
    alloc: Global,
    calls: &[ChainCall<'_>],
    state: &FlightState,
) -> Result<FlightState, NoMemory>
    ensures { IfOk result (λ same. flight_view (runs_of_calls calls.now) same
        ≡ flight_view (runs_of_calls calls.now) state.now) }
{
    let count = count_over(calls, state);
    let same = state.copy(alloc, state.base + count, count)?;
    Ok(same)
}
