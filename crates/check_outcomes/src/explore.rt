//! A search for all states of a submission. Nothing is proved of what it meets: the states are
//! looked through (`crate::closed`), and what was found is confirmed by an order (`crate::player`).

use crate::found::{FoundStates, FoundStep, key_of};
use crate::parts::part_numbers;
use crate::state::{PlayState, accesses_of, next_state, start};
use crate::submission::{PlayedSubmission, Progress};
use crate::turns::{turn_at, waits};
use check_search::Limits;
use fx_base::{Closed, NoMemory};
use fx_chain::Completion;
use fx_order::{ChainAccess, Slots};

// Returns the bytes that a state keeps of the answers and removed files on the way to it: of each
// request its answer, the bytes of a read, and the files that it removed, each with its numbers in
// the key.
fn weight_recorded(submission: &PlayedSubmission<'_>) -> usize {
    if !submission.with_reports {
        return 0;
    }
    let mut weight = submission.chains.len().saturating_mul(32);
    for request in submission.requests {
        weight = weight
            .saturating_add(request.weight().saturating_mul(60))
            .saturating_add(request.bytes_asked() as usize)
            .saturating_add(48);
    }
    weight
}

// Returns the bytes of a state. A slot takes 40, and its numbers in the key up to 24. A chain takes
// 16 and 8. Beside them a state takes some 750: itself, the step that led to it, its key and the
// key's place in the hash table, the heads of five blocks of memory, and the room that is left in
// the list of one chain's answers. The lists of states, steps and keys may each have room for twice
// as many.
fn weight_of_state(submission: &PlayedSubmission<'_>) -> usize {
    let slots = (submission.size as usize).saturating_mul(64);
    let chains = submission.chains.len().saturating_mul(24);
    slots
        .saturating_add(chains)
        .saturating_add(768)
        .saturating_add(weight_recorded(submission))
}

// Returns the bytes of a report: each request's completion, of which a list may have room for twice
// as many, and the bytes of a read, twice, since its text has two digits of each; each access in an
// order, also twice, and the file that it removed; a slot's file; and some 500 beside them: itself,
// the step that led to it, and the heads of four blocks of memory.
fn weight_of_report(submission: &PlayedSubmission<'_>) -> usize {
    let mut weight = (submission.size as usize).saturating_mul(40);
    for request in submission.requests {
        weight = weight
            .saturating_add(request.weight().saturating_mul(216))
            .saturating_add((request.bytes_asked() as usize).saturating_mul(2))
            .saturating_add(104);
    }
    weight.saturating_add(512)
}

// The sizes that are counted. With another one it must be counted again.
const _: () = prove!(size_of::<Option<Closed>>() == 40);

const _: () = prove!(size_of::<Progress>() == 16);

const _: () = prove!(size_of::<PlayState>() == 104);

const _: () = prove!(size_of::<Option<FoundStep>>() == 104);

const _: () = prove!(size_of::<ChainAccess>() == 88);

const _: () = prove!(size_of::<Completion>() == 40);

// The room that is left to a search: its number of states, and bytes. An end is a state of which a
// report is made.
#[derive(Clone, Copy)]
struct SearchRoom {
    states: usize,
    bytes: usize,
    state: usize,
    end: usize,
}

// Returns the room of a search. Once the states are gone, a copy of each report may be kept.
fn room_for(submission: &PlayedSubmission<'_>, limits: Limits) -> SearchRoom {
    let state = weight_of_state(submission);
    let report = weight_of_report(submission);
    SearchRoom {
        states: limits.states,
        bytes: limits.bytes,
        state,
        end: report.saturating_add(report.max(state)),
    }
}

impl SearchRoom {
    // Takes the room of the state of a number from that which is left. Returns false if it is too
    // little.
    fn take(&mut self, number: usize, is_end: bool) -> bool {
        let weight = if is_end { self.end } else { self.state };
        let has_room = number < self.states && weight <= self.bytes;
        if has_room {
            self.bytes = self.bytes.saturating_sub(weight);
        }
        has_room
    }
}

/// A search: what it found, the numbers of the states that it has still to look at, and its room.
#[derive(Drop)]
struct Search<'a> {
    submission: &'a PlayedSubmission<'a>,
    found: FoundStates,
    open: Vec<usize>,
    room: SearchRoom,
}

impl Search<'_> {
    // Notes a state, unless it is known, and the step that led to it. Returns false if there is no
    // room for it.
    fn add(&mut self, state: PlayState, from: Option<FoundStep>) -> Result<bool, NoMemory> {
        let key = key_of(self.found.alloc, &state)?;
        let (number, is_new) = self.found.keys.insert_full(key)?;
        if !is_new || !self.room.take(number, state.is_over(self.submission)) {
            return Ok(!is_new);
        }
        self.found.states.push(state)?;
        self.found.from.push(from)?;
        self.open.push(number)?;
        Ok(true)
    }

    // Notes the answers at the place that aren't known, and the step that gave them.
    fn note(&mut self, recorded: Vec<Completion>, by: Option<FoundStep>) -> Result<(), NoMemory> {
        for c in recorded {
            if self.submission.asked == Some(c.place) && !self.found.answers.contains(&c) {
                self.found.answers.push(c)?;
                self.found.by.push(by)?;
            }
        }
        Ok(())
    }

    // Follows an access of a chain in a state, if it may be made. Returns false if there is no room
    // for the state to which it leads.
    fn follow_step(&mut self, step: FoundStep) -> Result<bool, NoMemory> {
        let Some(here) = self.found.states.get(step.state) else {
            return Ok(true);
        };
        let submission = self.submission;
        let mut recorded = Vec::new(submission.alloc);
        let next = next_state(submission, here, step.chain, &step.access, &mut recorded)?;
        let Some(next) = next else {
            return Ok(true);
        };
        self.note(recorded, Some(step))?;
        self.add(next, Some(step))
    }

    // Follows each access that a chain may make next in a state, unless it is idle. Returns false
    // if there is no room for the states.
    fn follow(&mut self, state: usize, chain: usize) -> Result<bool, NoMemory> {
        let Some(here) = self.found.states.get(state) else {
            return Ok(true);
        };
        if chain >= self.submission.chains.len() || here.is_idle(self.submission, chain) {
            return Ok(true);
        }
        let Some(accesses) = accesses_of(self.submission, here, chain)? else {
            return Ok(true);
        };
        for access in accesses {
            let step = FoundStep {
                state,
                chain,
                access,
            };
            if !self.follow_step(step)? {
                return Ok(false);
            }
        }
        Ok(true)
    }

    // Follows each chain whose turn it is in a state. Returns false if there is no room for the
    // states.
    fn follow_turn(&mut self, state: usize) -> Result<bool, NoMemory> {
        let Some(here) = self.found.states.get(state) else {
            return Ok(true);
        };
        let turn = turn_at(self.submission, &self.found.numbers, here);
        for chain in 0..self.submission.chains.len() {
            if !waits(&self.found.numbers, turn, chain) && !self.follow(state, chain)? {
                return Ok(false);
            }
        }
        Ok(true)
    }

    // Looks at the states that were met last first, so that ends are met early. Returns false if
    // there is no room for all.
    fn run(&mut self) -> Result<bool, NoMemory> {
        for _ in 0..self.room.states {
            let Some(state) = self.open.pop() else {
                return Ok(true);
            };
            if !self.follow_turn(state)? {
                return Ok(false);
            }
        }
        Ok(self.open.is_empty())
    }

    // Looks for all states, beginning with the first one of the submission at these slots.
    fn run_from(&mut self, slots: &Slots) -> Result<(), NoMemory> {
        let mut recorded = Vec::new(self.submission.alloc);
        let first = start(self.submission, slots, &mut recorded)?;
        let has_room = self.add(first, None)?;
        for own in recorded {
            self.note(own, None)?;
        }
        self.found.is_whole = has_room && self.run()?;
        Ok(())
    }
}

/// Looks for all states of a submission at these slots, and for what is answered at the place on
/// the way, if there is one. It goes no further than the limits.
pub(crate) fn explore(
    submission: &PlayedSubmission<'_>,
    slots: &Slots,
    limits: Limits,
) -> Result<FoundStates, NoMemory> {
    let alloc = submission.alloc;
    let mut search = Search {
        submission,
        found: FoundStates::new(alloc, part_numbers(submission, slots)?),
        open: Vec::new(alloc),
        room: room_for(submission, limits),
    };
    search.run_from(slots)?;
    Ok(search.found)
}
