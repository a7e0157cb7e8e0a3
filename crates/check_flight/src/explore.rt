//! All states that flights reach after an event: those to which it leads from the states of a
//! front, and each state that accesses reach from them.
ghost use Rattle.check_flight.specs.Words.{IfOk, IfSome, IsTrue, length, take, happening_of, table_of_slots, HasEachNext};
ghost use Rattle.std.specs.Prelude.{◌≡◌, ◌+◌, ◌<◌, ◌≤◌};
ghost use Rattle.check_flight.specs.Judged.{IsCallFollowed, IsFrontOf, IsWaitDeniedIn, IsWhollyFollowed, catalogue_in, flight_view, flight_views};
ghost use Rattle.check_flight.specs.Judged.{log_in, rest_of, rules_of_log, runs_of_calls};
ghost use Rattle.check_flight.specs.States.{AreFollowed, ArePassed, AreWaitsDenied, runs_with};

use crate::call::{first_place, members_at};
use crate::front::Front;
use crate::judged::{ChainCall, JudgedLog};
use crate::passage::passage_of;
use crate::state::{FlightState, WaitingLook, waits};
use crate::step::by_access;
use crate::turn::is_out_of_turn;
use check_outcomes::chain_accesses;
use fx_base::NoMemory;
use fx_flight::LogEvent;
use fx_order::Access;

/// Adds the states to which the event at a position leads from those of a front. Returns whether it
/// leads to one from each of them, or is impossible there.
pub(crate) fn pass_all(
    log: &JudgedLog<'_>,
    calls: &[ChainCall<'_>],
    at: usize,
    event: &LogEvent,
    front: &Front,
    nexts: &mut Front,
) -> Result<bool, NoMemory>
    requires { at ≤ length log.now.events.now }
    ensures { IfOk result (λ yes. IsTrue yes → ArePassed log.now.whole (rules_of_log log.now)
        (log_in log.now) (runs_of_calls calls.now) (take at (log_in log.now))
        (flight_views (runs_of_calls calls.now) front.now.states.items)
        (flight_views (runs_with (runs_of_calls calls.now) (happening_of event.now))
        nexts.new.states.items) (happening_of event.now)) }
{
    for state in &front.states {
        let passage = passage_of(log, calls, at, event, state)?;
        if !nexts.take_in(passage)? {
            return Ok(false);
        }
    }
    Ok(true)
}

/// Returns each access that the call may make next that follows those that are over and `j` others,
/// and the table permits, and perhaps others. `None` if the state isn't one of the log.
pub(crate) fn accesses_of(
    log: &JudgedLog<'_>,
    calls: &[ChainCall<'_>],
    state: &FlightState,
    j: usize,
) -> Result<Option<Vec<Access>>, NoMemory>
    ensures each { IfOk result (λ accesses. IfSome accesses (λ accesses. HasEachNext
        (catalogue_in log.now) (table_of_slots state.now.slots)
        (rest_of (runs_of_calls calls.now) state.now (state.now.base + j + 1)) accesses.items)) }
    ensures size { IfOk result (λ accesses. IfSome accesses (λ _.
        length state.now.slots.at.items ≡ log.now.setting.size)) }
    ensures call { IfOk result (λ accesses. IfSome accesses (λ _.
        state.now.base + j < length calls.now)) }
{
    if state.slots.at.len() != log.setting.size as usize || state.base > calls.len() {
        return Ok(None);
    }
    if j >= calls.len() - state.base || state.base + j >= u32::MAX as usize - 1 {
        return Ok(None);
    }
    let i = state.base + j;
    let (place, own) = (first_place(i), members_at(calls, i));
    let accesses = chain_accesses(&log.setting, &state.slots, place, own, state.progress(j))?;
    Ok(Some(accesses))
}

// Adds the states to which accesses lead that the call may make next that follows those that are
// over and `j` others. Returns whether each access is followed.
fn follow_call(
    log: &JudgedLog<'_>,
    calls: &[ChainCall<'_>],
    state: &FlightState,
    j: usize,
    front: &mut Front,
) -> Result<bool, NoMemory>
    ensures kept { IfOk result (λ _. IsFrontOf front.old.states.items front.new.states.items) }
    ensures followed { IfOk result (λ yes. IsTrue yes → IsCallFollowed log.now
        (runs_of_calls calls.now) front.new.states.items state.now (state.now.base + j + 1)) }
{
    let Some(accesses) = accesses_of(log, calls, state, j)? else {
        return Ok(false);
    };
    for access in &accesses {
        let mut answered = Vec::new(log.setting.alloc);
        let passage = by_access(log, calls, state, j, access, &mut answered)?;
        if !front.take_in(passage)? {
            return Ok(false);
        }
    }
    Ok(true)
}

// Checks whether a look that waits in a state finds there what the log denies, or isn't in turn.
fn is_wait_denied(
    log: &JudgedLog<'_>,
    calls: &[ChainCall<'_>],
    state: &FlightState,
    look: &WaitingLook,
) -> bool
    ensures { IsTrue result → IsWaitDeniedIn log.now calls.now state.now look.now }
{
    if is_out_of_turn(log, calls, state, look.id as usize) {
        return true;
    }
    waits(log, &state.slots, look)
}

// Checks whether each look that waits in a state finds there what the log denies, or isn't in turn.
fn are_waits_denied(log: &JudgedLog<'_>, calls: &[ChainCall<'_>], state: &FlightState) -> bool
    ensures { IsTrue result → AreWaitsDenied log.now.whole (log_in log.now)
        (length (runs_of_calls calls.now)) (flight_view (runs_of_calls calls.now) state.now) }
{
    for look in &state.waiting {
        if !is_wait_denied(log, calls, state, look) {
            return false;
        }
    }
    true
}

// Adds the states to which accesses lead from a state. Returns whether each access is followed, and
// each look that waits there finds what the log denies.
fn follow(
    log: &JudgedLog<'_>,
    calls: &[ChainCall<'_>],
    state: &FlightState,
    front: &mut Front,
) -> Result<bool, NoMemory>
    ensures kept { IfOk result (λ _. IsFrontOf front.old.states.items front.new.states.items) }
    ensures followed { IfOk result (λ yes. IsTrue yes
        → IsWhollyFollowed log.now calls.now front.new.states.items
        (flight_view (runs_of_calls calls.now) state.now)) }
{
    for j in 0..calls.len().saturating_sub(state.base) {
        if !follow_call(log, calls, state, j, front)? {
            return Ok(false);
        }
    }
    Ok(are_waits_denied(log, calls, state))
}

/// Adds each state that accesses reach. Returns whether each access is followed, and there are at
/// most `most` states, and moves for them.
pub(crate) fn follow_all(
    log: &JudgedLog<'_>,
    calls: &[ChainCall<'_>],
    front: &mut Front,
    most: usize,
) -> Result<bool, NoMemory>
    ensures kept { IfOk result (λ _. IsFrontOf front.old.states.items front.new.states.items) }
    ensures followed { IfOk result (λ yes. IsTrue yes → AreFollowed log.now.whole
        (catalogue_in log.now) log.now.setting.size (log_in log.now)
        (length (runs_of_calls calls.now))
        (flight_views (runs_of_calls calls.now) front.new.states.items)) }
{
    for number in 0..most {
        let Some(state) = front.states.get(number) else {
            return Ok(true);
        };
        if !log.moves.spend() {
            return Ok(false);
        }
        let state = state.copy(log.setting.alloc, state.base, 0)?;
        if !follow(log, calls, &state, front)? {
            return Ok(false);
        }
    }
    Ok(front.states.len() <= most)
}
