//! The turn of a call among updates that must be whole: no other call may make an access, and no
//! event may come, from the first step of an update to its last one.
ghost use Rattle.check_flight.specs.Words.{IfOk, IsTrue, length};
ghost use Rattle.std.specs.Prelude.{◌≡◌, ◌+◌, ◌<◌};
ghost use Rattle.check_flight.specs.Judged.{flight_view, rest_of, runs_of_calls};
ghost use Rattle.check_flight.specs.States.{AreFewer, IsInTurnIf};

use crate::call::members_at;
use crate::judged::{ChainCall, JudgedLog};
use crate::state::{FlightState, WaitingLook, still_waiting};
use check_outcomes::Progress;
use fx_base::NoMemory;
use fx_order::Slots;

// Checks whether the call that follows those that are over and `j` others has begun an update and
// not ended it.
fn is_amid(calls: &[ChainCall<'_>], state: &FlightState, j: usize) -> bool
    requires { state.now.base + j < length calls.now }
    ensures { IsTrue result
        → (rest_of (runs_of_calls calls.now) state.now (state.now.base + j + 1)).made ≡ 0 → ⊥ }
{
    let progress = state.progress(j);
    let (done, made) = (progress.done, progress.made);
    let members = members_at(calls, state.base + j);
    if made == 0 || done >= members.len() {
        return false;
    }
    true
}

/// Checks whether another call than this one has begun an update and not ended it, if updates must
/// be whole. An event is of call 0.
pub(crate) fn is_out_of_turn(
    log: &JudgedLog<'_>,
    calls: &[ChainCall<'_>],
    state: &FlightState,
    id: usize,
) -> bool
    ensures { IsTrue result → IsInTurnIf log.now.whole (length (runs_of_calls calls.now))
        (flight_view (runs_of_calls calls.now) state.now) id → ⊥ }
{
    if !log.whole || state.base > calls.len() {
        return false;
    }
    let known = state.chains.len().min(calls.len() - state.base);
    for j in 0..known {
        if state.base + j + 1 != id && is_amid(calls, state, j) {
            return true;
        }
    }
    false
}

/// Returns the looks that still wait in a table with these slots, after an access of a call that
/// then has this progress. No look makes its access amid a whole update.
pub(crate) fn waiting_after(
    log: &JudgedLog<'_>,
    slots: &Slots,
    waiting: &[WaitingLook],
    after: Progress,
) -> Result<Vec<WaitingLook>, NoMemory>
    ensures { IfOk result (λ left. AreFewer waiting.now left.items) }
{
    if log.whole && after.made != 0 {
        return Ok(Vec::from_slice(log.setting.alloc, waiting)?);
    }
    still_waiting(log, slots, waiting)
}
