//! A search for one flight of a log, depth first. Nothing is proved of it: the player makes the
//! flight (`crate::player`).

use crate::explore::accesses_of;
use crate::front::{key_of, mixed};
use crate::judged::{ChainCall, JudgedLog};
use crate::passage::{Passage, passage_of};
use crate::plan::{FlightPlan, Move};
use crate::state::{FlightState, WaitingLook};
use crate::step::by_access;
use fx_base::NoMemory;
use fx_flight::LogEvent;
use fx_order::Access;
use indexmap::IndexSet;
use std::alloc::Global;

/// A move, the state to which it leads, and the number of events before that state.
#[derive(Drop)]
pub(crate) struct Lead {
    /// The move.
    pub(crate) made: Move,
    /// The state.
    pub(crate) state: FlightState,
    at: usize,
}

/// A state of the search, and which of its moves were tried: the next event first, then the
/// accesses of the calls, the call whose next answer comes first before the others.
#[derive(Drop)]
pub(crate) struct Frame {
    // The number of events before the state, and that of moves.
    at: usize,
    moves: usize,
    /// The state.
    pub(crate) state: FlightState,
    is_event_tried: bool,
    // The call to try, by its position after those that are over, and the position of its next
    // answer. `None` if no call was tried.
    call: Option<(usize, usize)>,
    // The position of the next access of that call to try, and whether there may be one.
    choice: usize,
    has_more: bool,
}

/// A state that a search went on from, and the number of events before it.
#[derive(Drop)]
pub(crate) struct SavedState {
    /// The number of events.
    pub(crate) at: usize,
    /// The state.
    pub(crate) state: FlightState,
}

/// The number of events from a saved state to the next one.
pub(crate) const SAVED_EVERY: usize = 1_000;

/// A search: the states from the first one that may be tried again to the last one, the moves that
/// led there, and the numbers of the states that lead nowhere.
#[derive(Drop)]
pub(crate) struct Search {
    /// The states that may be tried again.
    pub(crate) frames: Vec<Frame>,
    /// The moves, and an empty list of calls.
    pub(crate) plan: FlightPlan,
    /// The greatest number of events before a state that was tried.
    pub(crate) furthest: usize,
    /// The last two saved states.
    pub(crate) saved: Vec<SavedState>,
    dead: IndexSet<u64>,
    // More than the number of events before each of those states.
    dead_until: usize,
}

// Returns an access as a move, and the state to which it leads, if it is allowed and takes no file
// that a later look finds.
fn lead_by(
    log: &JudgedLog<'_>,
    calls: &[ChainCall<'_>],
    at: usize,
    state: &FlightState,
    j: usize,
    access: &Access,
) -> Result<Option<Lead>, NoMemory> {
    let i = state.base.saturating_add(j);
    if i >= calls.len() {
        return Ok(None);
    }
    let end = log.events.len();
    if let Some(file) = access.removed()
        && log.positions.is_found_after(file, at, end)
    {
        return Ok(None);
    }
    let call = i.saturating_add(1).min(u32::MAX as usize) as u32;
    let mut answered = Vec::new(log.setting.alloc);
    let Passage::Leads(state) = by_access(log, calls, state, j, access, &mut answered)? else {
        return Ok(None);
    };
    let made = Move {
        call,
        access: Some(*access),
        answered,
    };
    Ok(Some(Lead { made, state, at }))
}

// Returns the next call of a state to try that isn't over, with the position of its next answer:
// calls are tried in the order of these positions, and then of their numbers.
fn call_after(
    log: &JudgedLog<'_>,
    calls: &[ChainCall<'_>],
    at: usize,
    state: &FlightState,
    last: Option<(usize, usize)>,
) -> Option<(usize, usize)> {
    let mut next = None;
    for (j, progress) in state.chains.iter().enumerate() {
        let i = state.base.saturating_add(j);
        if !matches!(calls.get(i), Some(call) if call.requests.len() > progress.done) {
            continue;
        }
        let own = (log.positions.answer_after(i, at), j);
        let is_tried = matches!(last, Some(last) if own <= last);
        if !is_tried && !matches!(next, Some(next) if next <= own) {
            next = Some(own);
        }
    }
    next
}

impl Frame {
    fn new(at: usize, moves: usize, state: FlightState) -> Frame {
        Frame {
            at,
            moves,
            state,
            is_event_tried: false,
            call: None,
            choice: 0,
            has_more: false,
        }
    }

    // Returns the state after the next event, if the event is possible.
    fn after_event(
        &self,
        log: &JudgedLog<'_>,
        calls: &[ChainCall<'_>],
    ) -> Result<Option<Lead>, NoMemory> {
        let Some(event) = log.events.get(self.at) else {
            return Ok(None);
        };
        let Passage::Leads(state) = passage_of(log, calls, self.at, event, &self.state)? else {
            return Ok(None);
        };
        let made = Move {
            call: 0,
            access: None,
            answered: Vec::new(log.setting.alloc),
        };
        let at = self.at.saturating_add(1);
        Ok(Some(Lead { made, state, at }))
    }

    /// Returns the state after the first access that is allowed, from a position on among those
    /// that a call may make next: the call that follows those that are over and `j` others. Notes
    /// the position after it.
    pub(crate) fn after_access(
        &mut self,
        log: &JudgedLog<'_>,
        calls: &[ChainCall<'_>],
        j: usize,
        first: usize,
    ) -> Result<Option<Lead>, NoMemory> {
        self.has_more = false;
        let Some(accesses) = accesses_of(log, calls, &self.state, j)? else {
            return Ok(None);
        };
        for choice in first..accesses.len() {
            let access = &accesses[choice];
            if let Some(lead) = lead_by(log, calls, self.at, &self.state, j, access)? {
                self.choice = choice.saturating_add(1);
                self.has_more = self.choice < accesses.len();
                return Ok(Some(lead));
            }
        }
        Ok(None)
    }

    // Returns the state after the next move that wasn't tried, or `None` if all were tried.
    fn next(
        &mut self,
        log: &JudgedLog<'_>,
        all: &[ChainCall<'_>],
    ) -> Result<Option<Lead>, NoMemory> {
        let known = self.state.base.saturating_add(self.state.chains.len());
        let calls = &all[..known.min(all.len())];
        if !self.is_event_tried {
            self.is_event_tried = true;
            if let Some(lead) = self.after_event(log, calls)? {
                return Ok(Some(lead));
            }
        }
        for _ in 0..usize::MAX {
            if !self.has_more {
                self.call = call_after(log, calls, self.at, &self.state, self.call);
                self.choice = 0;
            }
            let Some((_, j)) = self.call else {
                return Ok(None);
            };
            if let Some(lead) = self.after_access(log, calls, j, self.choice)? {
                return Ok(Some(lead));
            }
        }
        Ok(None)
    }
}

// Returns a number of a state after `at` events.
fn number_of(at: usize, state: &FlightState) -> u64 {
    mixed(key_of(state), at as u64)
}

// Appends the access of a look that was made before a state, unless the look waits there. A look
// past the size of the table makes none.
fn push_look(
    alloc: Global,
    moves: &mut Vec<Move>,
    state: &FlightState,
    look: WaitingLook,
) -> Result<(), NoMemory> {
    if state.waiting.contains(&look) {
        return Ok(());
    }
    let Some(file) = state.slots.at.get(look.slot as usize) else {
        return Ok(());
    };
    moves.push(Move {
        call: look.id,
        access: Some(Access::Looks(look.slot, *file)),
        answered: Vec::new(alloc),
    })?;
    Ok(())
}

impl Search {
    /// Returns a search without states.
    pub(crate) fn new(alloc: Global) -> Search {
        Search {
            frames: Vec::new(alloc),
            plan: FlightPlan {
                calls: Vec::new(alloc),
                moves: Vec::new(alloc),
            },
            furthest: 0,
            saved: Vec::new(alloc),
            dead: IndexSet::new(alloc),
            dead_until: 0,
        }
    }

    // Saves the last state if it is far enough from the last one that was saved.
    fn save(&mut self, alloc: Global) -> Result<(), NoMemory> {
        let Some(frame) = self.frames.last() else {
            return Ok(());
        };
        let next = match self.saved.last() {
            Some(last) => last.at.saturating_add(SAVED_EVERY),
            None => SAVED_EVERY,
        };
        if frame.at < next {
            return Ok(());
        }
        let state = frame.state.copy(alloc, frame.state.base, 0)?;
        let at = frame.at;
        if self.saved.len() > 1 {
            self.saved.remove(0);
        }
        self.saved.push(SavedState { at, state })?;
        Ok(())
    }

    // Checks whether the state of a move leads nowhere.
    fn is_dead(&self, lead: &Lead) -> bool {
        if lead.at >= self.dead_until {
            return false;
        }
        let number = number_of(lead.at, &lead.state);
        self.dead.get_index_of(&number).is_some()
    }

    // Appends the accesses of the looks that wait no more in the last state: of those that waited
    // in the one before it, and of the one that an event called between them.
    fn push_looks(&mut self, log: &JudgedLog<'_>) -> Result<(), NoMemory> {
        let (alloc, count) = (log.setting.alloc, self.frames.len());
        if count < 2 {
            return Ok(());
        }
        let (before, last) = (&self.frames[count - 2], &self.frames[count - 1]);
        for look in &before.state.waiting {
            push_look(alloc, &mut self.plan.moves, &last.state, *look)?;
        }
        match log.events.get(before.at) {
            Some(LogEvent::Look { id, slot }) if before.at < last.at => {
                let (id, slot) = (*id, *slot);
                let look = WaitingLook { id, slot };
                push_look(alloc, &mut self.plan.moves, &last.state, look)
            }
            _ => Ok(()),
        }
    }

    // Forgets the first half of the states if that half has more than `most`.
    fn forget(&mut self, most: usize) -> Result<(), NoMemory> {
        let half = self.frames.len() / 2;
        if half > most {
            self.frames = self.frames.split_off(half)?;
        }
        Ok(())
    }

    // Goes on to a state, unless it leads nowhere.
    fn enter(&mut self, log: &JudgedLog<'_>, lead: Lead, most: usize) -> Result<(), NoMemory> {
        if self.is_dead(&lead) {
            return Ok(());
        }
        self.forget(most)?;
        let Lead { made, state, at } = lead;
        let moves = self.plan.moves.len();
        self.plan.moves.push(made)?;
        self.frames.push(Frame::new(at, moves, state))?;
        self.push_looks(log)
    }

    // Leaves the last state, which leads nowhere.
    fn leave(&mut self, alloc: Global, most: usize) -> Result<(), NoMemory> {
        let Some(frame) = self.frames.last() else {
            return Ok(());
        };
        let (at, moves) = (frame.at, frame.moves);
        let number = number_of(at, &frame.state);
        self.frames.pop();
        self.plan.moves.truncate(moves);
        if self.dead.len() > most {
            self.dead = IndexSet::new(alloc);
            self.dead_until = 0;
        }
        self.dead_until = self.dead_until.max(at.saturating_add(1));
        self.dead.insert_full(number)?;
        Ok(())
    }

    /// Looks for a flight of the log from a state after `from` events on. Returns true if the moves
    /// are one, and the last state is that after them: it tries at most `most` moves after each
    /// event, and goes back over as many states.
    pub(crate) fn run(
        &mut self,
        log: &JudgedLog<'_>,
        calls: &[ChainCall<'_>],
        from: usize,
        start: FlightState,
        most: usize,
    ) -> Result<bool, NoMemory> {
        self.frames.push(Frame::new(from, 0, start))?;
        self.furthest = from;
        let mut tries = 0;
        for _ in 0..usize::MAX {
            let Some(frame) = self.frames.last_mut() else {
                return Ok(false);
            };
            if frame.at >= log.events.len() {
                return Ok(true);
            }
            if frame.at > self.furthest {
                self.furthest = frame.at;
                tries = 0;
                self.save(log.setting.alloc)?;
            }
            if tries >= most || !log.moves.spend() {
                return Ok(false);
            }
            tries += 1;
            let Some(frame) = self.frames.last_mut() else {
                return Ok(false);
            };
            match frame.next(log, calls)? {
                Some(lead) => self.enter(log, lead, most)?,
                None => self.leave(log.setting.alloc, most)?,
            }
        }
        Ok(false)
    }
}
