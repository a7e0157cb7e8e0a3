//! The flight of a search's moves: the accesses and answers of each call, to its end. Nothing is
//! proved of it.

use crate::call::{first_place, push_call};
use crate::judged::{ChainCall, JudgedLog};
use crate::plan::{CallPlan, Move};
use crate::search::{Frame, Lead, Search};
use crate::state::{FlightState, first_state};
use check_outcomes::settle;
use fx_base::NoMemory;
use fx_order::Slots;

// More accesses than a call may make.
const MOST_ACCESSES: usize = 1 << 16;

// Appends the calls without accesses: the answers of each at once.
fn push_calls(
    log: &JudgedLog<'_>,
    calls: &[ChainCall<'_>],
    plans: &mut Vec<CallPlan>,
) -> Result<(), NoMemory> {
    let alloc = log.setting.alloc;
    for (i, call) in calls.iter().enumerate() {
        plans.push(CallPlan {
            accesses: Vec::new(alloc),
            answers: Vec::new(alloc),
        })?;
        if i < u32::MAX as usize - 1
            && let Some(own) = plans.last_mut()
        {
            let place = first_place(i);
            settle(&log.setting, place, call.requests, &mut own.answers)?;
        }
    }
    Ok(())
}

// Appends an access of a call, and moves its answers there.
fn push_access(plans: &mut [CallPlan], made: &mut Move) -> Result<(), NoMemory> {
    let i = (made.call as usize).saturating_sub(1);
    let Some(own) = plans.get_mut(i) else {
        return Ok(());
    };
    own.answers.append(&mut made.answered)?;
    if let Some(access) = made.access {
        own.accesses.push(access)?;
    }
    Ok(())
}

// Appends the accesses that are left of each call, the first ones that are permitted. `frame` is
// that after the moves.
fn finish(
    log: &JudgedLog<'_>,
    calls: &[ChainCall<'_>],
    plans: &mut [CallPlan],
    frame: &mut Frame,
) -> Result<(), NoMemory> {
    for j in 0..frame.state.chains.len() {
        for _ in 0..MOST_ACCESSES {
            let Some(lead) = frame.after_access(log, calls, j, 0)? else {
                break;
            };
            let Lead {
                mut made,
                state,
                ..
            } = lead;
            frame.state = state;
            push_access(plans, &mut made)?;
        }
    }
    Ok(())
}

// Makes the plan of what a search finds from a state on. Returns whether it found a flight.
fn plan_found(
    log: &JudgedLog<'_>,
    calls: &[ChainCall<'_>],
    start: FlightState,
    most: usize,
    search: &mut Search,
) -> Result<bool, NoMemory> {
    if !search.run(log, calls, 0, start, most)? {
        return Ok(false);
    }
    let plan = &mut search.plan;
    push_calls(log, calls, &mut plan.calls)?;
    for made in plan.moves.iter_mut() {
        push_access(&mut plan.calls, made)?;
    }
    if let Some(frame) = search.frames.last_mut() {
        finish(log, calls, &mut plan.calls, frame)?;
    }
    Ok(true)
}

/// Makes the plan of a flight of the log that begins at these slots, by a search that goes back
/// over at most `most` states. Returns whether it found one.
pub(crate) fn propose(
    log: &JudgedLog<'_>,
    slots: &Slots,
    most: usize,
    search: &mut Search,
) -> Result<bool, NoMemory> {
    let alloc = log.setting.alloc;
    let mut calls = Vec::new(alloc);
    for event in log.events {
        if !push_call(&mut calls, event)? {
            return Ok(false);
        }
    }
    plan_found(log, &calls, first_state(alloc, slots)?, most, search)
}
