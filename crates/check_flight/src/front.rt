//! The states that a search met: the front of the flights at an event.
ghost use Rattle.check_flight.specs.Words.{[], Contains, IfOk, IsTrue, List, Asked};
ghost use Rattle.std.specs.Prelude.{◌≡◌, ◌∷◌};
ghost use Rattle.check_flight.specs.Judged.{IsFrontOf, flight_view, flight_views, IsTakenIn};

use crate::passage::Passage;
use crate::positions::file_number;
use crate::state::FlightState;
use fx_base::NoMemory;
use indexmap::IndexSet;
use std::alloc::Global;

/// The states that a search met. Each is a hint, and nothing is proved of it.
#[derive(Drop)]
pub(crate) struct Front {
    /// The states, in the order in which they were met.
    pub(crate) states: Vec<FlightState>,
    /// The numbers of the states, for looking them up.
    keys: IndexSet<u64>,
}

/// Returns the number of a list with one more element. Lists seldom have the same number, also
/// lists of zeros of other lengths.
pub(crate) fn mixed(number: u64, more: u64) -> u64 {
    let mixed = (number ^ more).wrapping_add(0xd1b5_4a32_d192_ed03);
    let mixed = mixed.wrapping_mul(0x9e37_79b9_7f4a_7c15);
    mixed ^ (mixed >> 29)
}

/// Returns a number of a state, which states seldom share.
pub(crate) fn key_of(state: &FlightState) -> u64 {
    let mut key = mixed(state.base as u64, state.waiting.len() as u64);
    for progress in &state.chains {
        key = mixed(mixed(key, progress.done as u64), progress.made as u64);
    }
    for file in &state.slots.at {
        key = match file {
            Some(file) => mixed(key, file_number(*file)),
            None => mixed(key, 0),
        };
    }
    for look in &state.waiting {
        key = mixed(key, look.id as u64);
    }
    for file in &state.removed {
        key = mixed(key, file_number(*file));
    }
    key
}

impl Front {
    /// Returns a front without states.
    pub(crate) fn new(alloc: Global) -> Front
        ensures { result.states.items ≡ [] }
    {
        Front {
            states: Vec::new(alloc),
            keys: IndexSet::new(alloc),
        }
    }

    /// Returns a front of one state.
    pub(crate) fn with(alloc: Global, state: FlightState) -> Result<Front, NoMemory>
        ensures { IfOk result (λ front. front.states.items ≡ state ∷ []) }
    {
        let mut front = Front::new(alloc);
        front.keys.insert_full(key_of(&state))?;
        front.states.push(state)?;
        Ok(front)
    }

    /// Returns a copy.
    pub(crate) fn copy(&self, alloc: Global) -> Result<Front, NoMemory>
        ensures { IfOk result (λ copy. (runs : List (List Asked))
            → flight_views runs copy.states.items ≡ flight_views runs self.now.states.items) }
    {
        let mut copy = Front::new(alloc);
        for state in &self.states {
            copy.keys.insert_full(key_of(state))?;
            copy.states.push(state.copy(alloc, state.base, 0)?)?;
        }
        Ok(copy)
    }

    // Adds a state, unless it is known. Returns false if another one has its numbers.
    fn add(&mut self, state: FlightState) -> Result<bool, NoMemory>
        ensures kept { IfOk result (λ _.
            IsFrontOf self.old.states.items self.new.states.items) }
        ensures has { IfOk result (λ yes. IsTrue yes → (runs : List (List Asked)) → Contains
            (flight_views runs self.new.states.items) (flight_view runs state)) }
    {
        let (number, is_new) = self.keys.insert_full(key_of(&state))?;
        if is_new {
            self.states.push(state)?;
            return Ok(true);
        }
        match self.states.get(number) {
            Some(there) => Ok(there.is_same(&state)),
            None => Ok(false),
        }
    }

    /// Adds the state to which a passage leads, if it leads to one. Returns false if the passage is
    /// unfit, or another state has the numbers of that one.
    pub(crate) fn take_in(&mut self, passage: Passage) -> Result<bool, NoMemory>
        ensures kept { IfOk result (λ _.
            IsFrontOf self.old.states.items self.new.states.items) }
        ensures taken { IfOk result (λ yes. IsTrue yes
            → IsTakenIn self.new.states.items passage) }
    {
        match passage {
            Passage::Stops => Ok(true),
            Passage::Leads(next) => self.add(next),
            Passage::IsUnfit => Ok(false),
        }
    }
}
