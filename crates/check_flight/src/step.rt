//! The state that an access leads to.
ghost use Rattle.check_flight.specs.Words.{[], IfOk, IfSome, IsPermutation, length, slice_index_or, slice_set, option_to_list, all_completed};
ghost use Rattle.check_flight.specs.Words.{Permits, file_removed_by, table_with, table_of_slots, first_of_call, StepsChain, not_begun, run_at};
ghost use Rattle.std.specs.Prelude.{◌≡◌, ◌+◌, ◌++◌, ◌<◌};
ghost use Rattle.check_flight.specs.Judged.{rules_of_log, runs_of_calls, IsAccessPassage};
ghost use Rattle.check_flight.specs.States.{AreFewer};

use crate::call::{first_place, members_at};
use crate::judged::{ChainCall, JudgedLog};
use crate::passage::Passage;
use crate::state::FlightState;
use crate::turn::{is_out_of_turn, waiting_after};
use check_outcomes::{Progress, removed_after, step};
use fx_base::NoMemory;
use fx_chain::Completion;
use fx_order::Access;

// Returns the progress of a call after an access, and appends what is answered on the way: of the
// call that follows those that are over and `j` others. `None` if the state isn't one of the log.
fn progress_after(
    log: &JudgedLog<'_>,
    calls: &[ChainCall<'_>],
    state: &FlightState,
    j: usize,
    access: &Access,
    answered: &mut Vec<Completion>,
) -> Result<Option<Progress>, NoMemory>
    requires call { state.now.base + j < length calls.now }
    requires answered { answered.old.items ≡ [] }
    requires permitted { Permits (table_of_slots state.now.slots) access.now }
    ensures known { IfOk result (λ after. IfSome after (λ _.
        j < length state.now.chains.items)) }
    ensures steps { IfOk result (λ after. IfSome after (StepsChain (rules_of_log log.now)
        (first_of_call (state.now.base + j + 1))
        (run_at (runs_of_calls calls.now) (state.now.base + j + 1))
        (slice_index_or state.now.chains.items j not_begun) access.now
        [] (all_completed answered.new.items))) }
{
    if state.slots.at.len() != log.setting.size as usize {
        return Ok(None);
    }
    let Some(progress) = state.chains.get(j) else {
        return Ok(None);
    };
    let i = state.base + j;
    if i >= u32::MAX as usize - 1 || progress.made > u32::MAX as usize {
        return Ok(None);
    }
    let (place, own) = (first_place(i), members_at(calls, i));
    let after = step(&log.setting, place, own, *progress, *access, answered)?;
    Ok(Some(after))
}

// Returns where an access leads if a call then has this progress: the call that follows those that
// are over and `j` others.
fn moved_state(
    log: &JudgedLog<'_>,
    state: &FlightState,
    j: usize,
    access: &Access,
    after: Progress,
) -> Result<FlightState, NoMemory>
    requires known { j < length state.now.chains.items }
    requires permitted { Permits (table_of_slots state.now.slots) access.now }
    ensures table { IfOk result (λ next. table_of_slots next.slots
        ≡ table_with (table_of_slots state.now.slots) access.now) }
    ensures base { IfOk result (λ next. next.base ≡ state.now.base) }
    ensures chains { IfOk result (λ next.
        next.chains.items ≡ slice_set state.now.chains.items j after) }
    ensures removed { IfOk result (λ next. IsPermutation (state.now.removed.items
        ++ option_to_list (file_removed_by access.now)) next.removed.items) }
    ensures waiting { IfOk result (λ next.
        AreFewer state.now.waiting.items next.waiting.items) }
{
    let alloc = log.setting.alloc;
    let mut next = state.copy(alloc, state.base, 0)?;
    next.chains[j] = after;
    next.slots.make(access);
    next.removed = removed_after(alloc, &state.removed, access)?;
    next.waiting = waiting_after(log, &next.slots, &state.waiting, after)?;
    Ok(next)
}

/// Returns what an access does to a state, of the call that follows those that are over and `j`
/// others, and appends what is answered on the way.
pub(crate) fn by_access(
    log: &JudgedLog<'_>,
    calls: &[ChainCall<'_>],
    state: &FlightState,
    j: usize,
    access: &Access,
    answered: &mut Vec<Completion>,
) -> Result<Passage, NoMemory>
    requires call { state.now.base + j < length calls.now }
    requires answered { answered.old.items ≡ [] }
    ensures { IfOk result (IsAccessPassage log.now (runs_of_calls calls.now) state.now
        (state.now.base + j + 1) access.now) }
{
    if !state.slots.permits(access) {
        return Ok(Passage::Stops);
    }
    if is_out_of_turn(log, calls, state, state.base + j + 1) {
        return Ok(Passage::Stops);
    }
    let Some(after) = progress_after(log, calls, state, j, access, answered)? else {
        return Ok(Passage::IsUnfit);
    };
    if log.is_one_denied(answered) {
        return Ok(Passage::Stops);
    }
    Ok(Passage::Leads(moved_state(log, state, j, access, after)?))
}
