//! The search for an order. Nothing is proved of what it finds: its result is checked
//! (`crate::certificate`).

use crate::plans::{EACH, played};
use crate::steps::Steps;
use crate::walk::{Visited, search_by};
use fx_base::NoMemory;
use indexmap::IndexSet;
use std::alloc::Global;

/// The reason for which a search leaves a submission undecided. It is advice: no contract says that
/// the search would have decided it within larger limits.
#[derive(Clone, Copy)]
pub enum Doubt {
    /// The search stopped at its limit of states.
    TooManyStates,
    /// The search stopped at its limit of memory.
    TooMuchMemory,
    /// The search ended, and its result wasn't confirmed.
    NotShown,
}

/// The limits of a search for the states of a submission, or of a part of one.
#[derive(Clone, Copy)]
pub struct Limits {
    /// The largest number of states.
    pub states: usize,
    /// The largest number of bytes that the kept states take, as estimated by the search.
    pub bytes: usize,
}

/// The result of a search.
#[derive(Drop)]
pub enum Found {
    /// The chains whose claims, made in this order, lead to an end, by their places in the list.
    Order(Vec<usize>),
    /// The search met each state that can be reached, and none is an end.
    NoEnd,
    /// The search found neither within its limits.
    Stopped(Doubt),
}

/// The states that a search met, packed, in the order in which it met them.
pub type Rows = IndexSet<Vec<u16>>;

// The number of bytes that a state takes beside its numbers: its list (24) and the head of that
// list's block of memory (16), its place in the set of states (some 14), its sum and the sum's
// place in a set (some 22), and a stage of the way (32). That is some 108, in lists that may each
// have room for twice as many.
const BESIDE: usize = 256;

const _: () = prove!(size_of::<Vec<u16>>() == 24);

/// The largest number of states, whether they are kept, and the doubt that is reported beyond that
/// number.
#[derive(Clone, Copy)]
pub(crate) struct SearchRoom {
    pub states: usize,
    pub keeps: bool,
    pub doubt: Doubt,
}

// Returns the room for states of the length of `row`, whose numbers have two bytes each.
fn room_for(row: &[u16], limits: Limits) -> SearchRoom {
    let weight = row.len().saturating_mul(2).saturating_add(BESIDE);
    let states = limits.bytes.checked_div(weight).unwrap_or(0);
    let doubt = if states < limits.states {
        Doubt::TooMuchMemory
    } else {
        Doubt::TooManyStates
    };
    SearchRoom {
        states: states.min(limits.states),
        keeps: true,
        doubt,
    }
}

// The number of states of the first search, of all orders. Measured with `plans::PLANS`, and not by
// itself.
const FIRST_STATES: usize = 10_000;

/// The number of states, beyond one for each claim, of a first search: the text of one worker needs
/// one state for each claim.
pub const FEW_STATES: usize = 1_000;

// Looks for an end: in all orders through a small number of states, then by plans that leave chains
// and orders out, and at last in all orders.
fn search(
    alloc: Global,
    steps: &Steps<'_>,
    room: SearchRoom,
    met: &mut Visited,
) -> Result<Found, NoMemory> {
    let first = FIRST_STATES.max(steps.count.saturating_add(FEW_STATES));
    if room.states > first {
        let few = SearchRoom {
            states: first,
            ..room
        };
        match search_by(alloc, steps, None, EACH, few, met)? {
            Found::Stopped(_) => {}
            found => return Ok(found),
        }
        let rest = SearchRoom {
            states: room.states - first,
            ..room
        };
        if let Some(order) = played(alloc, steps, rest, met)? {
            return Ok(Found::Order(order));
        }
    }
    search_by(alloc, steps, None, EACH, room, met)
}

/// Searches for an end within `limits`. If a small number of states isn't enough, it first tries
/// plans that find what some number of workers played. The states are those of a search of all
/// orders that ended.
///
/// # Errors
/// `NoMemory` if an allocation fails.
pub fn explore(
    alloc: Global,
    steps: &Steps<'_>,
    limits: Limits,
) -> Result<(Rows, Found), NoMemory> {
    let room = room_for(&steps.start(alloc)?, limits);
    let mut met = Visited {
        rows: IndexSet::new(alloc),
        blocked: Vec::new(alloc),
    };
    let found = search(alloc, steps, room, &mut met)?;
    Ok((met.rows, found))
}
