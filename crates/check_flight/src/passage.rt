//! The effect of an event of the log on a state: it leads to another one, or is impossible.
ghost use Rattle.check_flight.specs.Words.{[], Contains, IfOk, IsTrue, List, length, take, Identity, Asked, all_asked, Called, FileClosed, Happening};
ghost use Rattle.check_flight.specs.Words.{LookCalled, happening_of, IsLookDone, run_at};
ghost use Rattle.std.specs.Prelude.{◌≡◌, ◌+◌, ◌<◌, ◌≤◌};
ghost use Rattle.check_flight.specs.Judged.{flight_view, log_in, rest_of, rules_of_log, runs_of_calls, IsPassage};
ghost use Rattle.check_flight.specs.States.{IsNumbered, IsStopped, IsUnmade};

use crate::call::{first_place, members_at};
use crate::judged::{ChainCall, JudgedLog};
use crate::state::{FlightState, WaitingLook, remove_file, still_waiting, trimmed};
use crate::turn::is_out_of_turn;
use check_certificate::was_closed;
use check_outcomes::{Progress, settle};
use fx_base::{Closed, NoMemory};
use fx_chain::{Completion, Request};
use fx_flight::LogEvent;

/// The effect of an event on a state.
#[derive(Drop)]
pub(crate) enum Passage {
    /// It is impossible in the state.
    Stops,
    /// It leads to this state.
    Leads(FlightState),
    /// The state isn't one of the log, or the call is not the next one.
    IsUnfit,
}

// Checks whether an answer is impossible in a state, since its member isn't done there.
fn is_early(calls: &[ChainCall<'_>], state: &FlightState, c: &Completion) -> bool
    ensures { IsTrue result
        → length (run_at (runs_of_calls calls.now) c.now.place.submission)
        < length (rest_of (runs_of_calls calls.now) state.now c.now.place.submission).requests
        + c.now.place.member }
{
    let id = c.place.submission as usize;
    if id <= state.base || id > calls.len() {
        return false;
    }
    let members = members_at(calls, id - 1);
    let left = members
        .len()
        .saturating_sub(state.progress(id - 1 - state.base).done);
    members.len() < left + c.place.member as usize
}

// Checks whether one of the files isn't closed before the event at a position.
fn is_one_unclosed(log: &JudgedLog<'_>, at: usize, files: &[Closed]) -> bool
    requires { at ≤ length log.now.events.now }
    ensures { IsTrue result → (file : Identity) × Contains files.now file
        × (Contains (take at (log_in log.now)) (FileClosed file) → ⊥) }
{
    for file in files {
        if !was_closed(&log.events[..at], *file) {
            return true;
        }
    }
    false
}

// Returns what a call does to a state.
fn by_call(
    log: &JudgedLog<'_>,
    calls: &[ChainCall<'_>],
    state: &FlightState,
    id: u32,
    chain: &[Request],
) -> Result<Passage, NoMemory>
    ensures { IfOk result (λ passage. (read : List Happening) → IsPassage log.now
        (runs_of_calls calls.now) read state.now (Called id (all_asked chain.now)) passage) }
{
    let Some(call) = ChainCall::of(chain) else {
        return Ok(Passage::IsUnfit);
    };
    let i = calls.len();
    if id == 0 || id as usize - 1 != i {
        return Ok(Passage::IsUnfit);
    }
    if state.base > i || state.chains.len() != i - state.base {
        return Ok(Passage::IsUnfit);
    }
    let alloc = log.setting.alloc;
    let mut answered = Vec::new(alloc);
    let done = settle(&log.setting, first_place(i), call.requests, &mut answered)?;
    if log.is_one_denied(&answered) {
        return Ok(Passage::Stops);
    }
    let mut next = state.copy(alloc, state.base, 0)?;
    next.chains.push(Progress { done, made: 0 })?;
    Ok(Passage::Leads(next))
}

// Returns what the call of a look does to a state: it is a call without requests.
fn by_look(
    log: &JudgedLog<'_>,
    calls: &[ChainCall<'_>],
    state: &FlightState,
    look: WaitingLook,
) -> Result<Passage, NoMemory>
    ensures { IfOk result (λ passage. (read : List Happening) → IsPassage log.now
        (runs_of_calls calls.now) read state.now (LookCalled look.id look.slot) passage) }
{
    let Passage::Leads(mut next) = by_call(log, calls, state, look.id, &[])? else {
        return Ok(Passage::IsUnfit);
    };
    next.waiting.push(look)?;
    next.waiting = still_waiting(log, &next.slots, &next.waiting)?;
    Ok(Passage::Leads(next))
}

// Checks whether a look that waits is this one, and can't be answered so: within the size of the
// table by nothing, and past it by no file.
fn is_look_unmade(size: usize, look: &WaitingLook, id: u32, found: Option<Closed>) -> bool
    ensures { IsTrue result → (look.now.id ≡ id) × (IsLookDone size look.now.slot [] found → ⊥) }
{
    if look.id != id {
        return false;
    }
    if (look.slot as usize) < size {
        return true;
    }
    found.is_some()
}

// Checks whether a look that waits in a state can't be answered so.
fn is_unmade(state: &FlightState, id: u32, found: Option<Closed>) -> bool
    ensures { IsTrue result → (runs : List (List Asked))
        → IsUnmade (flight_view runs state.now) id found }
{
    for look in &state.waiting {
        if is_look_unmade(state.slots.at.len(), look, id, found) {
            return true;
        }
    }
    false
}

// Returns what the close of a file does to a state in which it is possible.
fn by_close(
    log: &JudgedLog<'_>,
    calls: &[ChainCall<'_>],
    state: &FlightState,
    file: Closed,
) -> Result<Passage, NoMemory>
    ensures { IfOk result (λ passage. (read : List Happening) → IsPassage log.now
        (runs_of_calls calls.now) read state.now (FileClosed file) passage) }
{
    let mut next = state.copy(log.setting.alloc, state.base, 0)?;
    remove_file(&mut next.removed, file);
    Ok(Passage::Leads(next))
}

// Checks whether the event at a position, unless it is a call, is impossible in a state.
fn is_stopped(
    log: &JudgedLog<'_>,
    calls: &[ChainCall<'_>],
    at: usize,
    event: &LogEvent,
    state: &FlightState,
) -> bool
    requires { at ≤ length log.now.events.now }
    ensures { IsTrue result → IsStopped (rules_of_log log.now) (log_in log.now)
        (runs_of_calls calls.now) (take at (log_in log.now))
        (flight_view (runs_of_calls calls.now) state.now) (happening_of event.now) }
{
    match event {
        LogEvent::Done(c) => is_early(calls, state, c),
        LogEvent::Found { id, file } => {
            if log.is_found_closed(at, *file) {
                return true;
            }
            is_unmade(state, *id, *file)
        }
        LogEvent::Closed(file) => {
            if !state.removed.contains(file) {
                return true;
            }
            log.is_held(at, *file)
        }
        LogEvent::Settled => is_one_unclosed(log, at, &state.removed),
        _ => false,
    }
}

/// Returns what the event at a position does to a state.
pub(crate) fn passage_of(
    log: &JudgedLog<'_>,
    calls: &[ChainCall<'_>],
    at: usize,
    event: &LogEvent,
    state: &FlightState,
) -> Result<Passage, NoMemory>
    requires { at ≤ length log.now.events.now }
    ensures { IfOk result (λ passage. IsPassage log.now (runs_of_calls calls.now)
        (take at (log_in log.now)) state.now (happening_of event.now) passage) }
{
    if is_out_of_turn(log, calls, state, 0) {
        return Ok(Passage::Stops);
    }
    if is_stopped(log, calls, at, event, state) {
        return Ok(Passage::Stops);
    }
    let alloc = log.setting.alloc;
    match event {
        LogEvent::Call { id, chain } => by_call(log, calls, state, *id, chain.as_slice()),
        LogEvent::Look { id, slot } => {
            let (id, slot) = (*id, *slot);
            by_look(log, calls, state, WaitingLook { id, slot })
        }
        LogEvent::Done(_) => Ok(Passage::Leads(trimmed(alloc, calls, state)?)),
        LogEvent::Found { .. } => Ok(Passage::Leads(trimmed(alloc, calls, state)?)),
        LogEvent::Free { .. } => Ok(Passage::Leads(state.copy(alloc, state.base, 0)?)),
        LogEvent::Closed(file) => by_close(log, calls, state, *file),
        LogEvent::Settled => Ok(Passage::Leads(state.copy(alloc, state.base, 0)?)),
    }
}

/// Checks whether a call has the number after that of the last one.
pub(crate) fn is_numbered(calls: usize, event: &LogEvent) -> bool
    ensures { IsTrue result → IsNumbered calls (happening_of event.now) }
{
    match event {
        LogEvent::Call { id, chain: _ } => *id != 0 && *id as usize - 1 == calls,
        LogEvent::Look { id, slot: _ } => *id != 0 && *id as usize - 1 == calls,
        _ => true,
    }
}
