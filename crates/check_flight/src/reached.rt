//! The states that flights of a log reach after its first events, saved for longer beginnings of
//! the log.
ghost use Rattle.check_flight.specs.Words.{ℕ, Bool, IfOk, IfSome, IsTrue, List, length, FileEntry, ring_of_slots, Slots, Happening, RingState};
ghost use Rattle.std.specs.Prelude.{◌≡◌, ◌<◌};
ghost use Rattle.check_flight.specs.Judged.{log_in, IsNextFront, IsReached, IsReachedFrom, IsTableOf};

use crate::call::push_call;
use crate::explore::{follow_all, pass_all};
use crate::front::Front;
use crate::judged::{ChainCall, JudgedLog};
use crate::passage::is_numbered;
use crate::state::first_state;
use fx_base::NoMemory;
use fx_order::Slots;
use std::alloc::Global;

/// The states that flights of a log reach after its first events.
#[derive(Drop)]
pub(crate) struct ReachedStates<'a> {
    /// The number of these events.
    pub(crate) at: usize,
    /// The calls among them.
    pub(crate) calls: Vec<ChainCall<'a>>,
    /// The states.
    pub(crate) front: Front,
    /// The number of events before the first one after which no state is left, if none is. A hint.
    pub(crate) last: usize,
}

// Goes on by the event at a position. Returns whether the front then has all states that flights
// reach.
fn advance<'a>(
    log: &JudgedLog<'a>,
    calls: &mut Vec<ChainCall<'a>>,
    at: usize,
    front: &mut Front,
    most: usize,
) -> Result<bool, NoMemory>
    requires { at < length log.now.events.now }
    ensures { IfOk result (λ yes. IsTrue yes → IsNextFront log.now at calls.old.items
        front.old.states.items calls.new.items front.new.states.items) }
{
    let event = &log.events[at];
    let known = calls.len();
    if !is_numbered(known, event) || !push_call(calls, event)? {
        return Ok(false);
    }
    let calls = calls.as_slice();
    let mut nexts = Front::new(log.setting.alloc);
    if !pass_all(log, &calls[..known], at, event, front, &mut nexts)? {
        return Ok(false);
    }
    if !follow_all(log, calls, &mut nexts, most)? {
        return Ok(false);
    }
    *front = nexts;
    Ok(true)
}

impl<'a> ReachedStates<'a> {
    /// Returns the one state before the first event.
    pub(crate) fn first(alloc: Global, slots: &Slots) -> Result<ReachedStates<'a>, NoMemory>
        ensures { IfOk result (λ first. (whole : Bool) (catalogue : List FileEntry)
            (log : List Happening) (submissions registrations : ℕ) → IsReached whole
            (ring_of_slots catalogue slots.now submissions registrations) log first) }
    {
        let state = first_state(alloc, slots)?;
        Ok(ReachedStates {
            at: 0,
            calls: Vec::new(alloc),
            front: Front::with(alloc, state)?,
            last: 0,
        })
    }

    /// Returns a copy.
    pub(crate) fn copy(&self, alloc: Global) -> Result<ReachedStates<'a>, NoMemory>
        ensures { IfOk result (λ copy. (whole : Bool) (old : RingState) (log : List Happening)
            → IsReached whole old log self.now → IsReached whole old log copy) }
    {
        Ok(ReachedStates {
            at: self.at,
            calls: Vec::from_slice(alloc, &self.calls)?,
            front: self.front.copy(alloc)?,
            last: self.last,
        })
    }

    /// Goes on to the end of a log, with at most `most` states at each event. Returns the states
    /// there, or `None` if they aren't all that flights reach.
    pub(crate) fn go_on(
        self,
        log: &JudgedLog<'a>,
        most: usize,
    ) -> Result<Option<ReachedStates<'a>>, NoMemory>
        ensures { IfOk result (λ end. IfSome end (λ end. (slots : Slots) → IsTableOf log.now slots
            → IsReachedFrom log.now slots (log_in log.now) self.entry
            → IsReachedFrom log.now slots (log_in log.now) end
            × (end.at ≡ length (log_in log.now)))) }
    {
        let ReachedStates {
            at: first,
            mut calls,
            mut front,
            mut last,
        } = self;
        let count = log.events.len();
        for at in first..count {
            if !front.states.is_empty() {
                last = at;
            }
            if !advance(log, &mut calls, at, &mut front, most)? {
                return Ok(None);
            }
        }
        Ok(Some(ReachedStates {
            at: count,
            calls,
            front,
            last,
        }))
    }
}
