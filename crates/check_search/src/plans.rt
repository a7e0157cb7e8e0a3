//! Searches that leave chains and orders out, by what workers do: they find what some workers
//! played. Nothing is proved of them.

use crate::search::{Found, SearchRoom};
use crate::steps::Steps;
use crate::tracks::Tracks;
use crate::walk::{Visited, search_by};
use fx_base::NoMemory;
use std::alloc::Global;

/// The chains that a search may continue, and their order.
#[derive(Clone, Copy)]
pub(crate) struct Plan {
    /// The number of chains that may be open at once, the first unfinished ones: a worker begins
    /// chains in turn, and has one open.
    pub open: usize,
    /// The seed by which the first of these is drawn, or 0 for the chain of the last step.
    pub seed: usize,
}

/// Each chain may be continued, so a search by this plan that finds no end shows that there is
/// none.
pub(crate) const EACH: Plan = Plan {
    open: usize::MAX,
    seed: 0,
};

// The number of open chains, and the first value of a track's `near`, of each search by tracks.
// Measured on 60 texts of 400 chains at 64 slots by 4 workers: 3 were undecided without these
// searches, and none with them. The four pairs weren't measured one by one.
const NEAR: &[(usize, usize)] = &[(4, 8), (8, 8), (16, 16), (4, 32)];

// The number of searches of each pair, each with wider tracks at the slots that blocked the last
// one, and the number of states of a search beyond one for each claim. Measured together with the
// pairs.
const ROUNDS: usize = 8;

const NEAR_STATES: usize = 1_000;

// The numbers of open chains of the searches without tracks, the smallest first. Measured with
// `PLANS` on 60 texts of each kind, on an idle machine, how many were undecided without these
// searches, and with them: of 29 submissions by 3 workers 43 and none, of 400 chains by 4 workers
// 13 and none, of 16 to 64 chains by 16 workers in turns 9 and 1.
const OPEN: &[usize] = &[2, 3, 4, 8, 16];

// The seed of each search, and its number of states beyond one for each claim. A way has fewer than
// 1,000,000 steps, so that no two seeds draw the same numbers.
const PLANS: &[(usize, usize)] = &[
    (0, 20_000),
    (1_000_000, 5_000),
    (2_000_000, 5_000),
    (3_000_000, 20_000),
    (4_000_000, 20_000),
    (0, 80_000),
    (5_000_000, 80_000),
];

// Takes states for a search from the room that is left, if this suffices.
fn taken(left: &mut SearchRoom, steps: &Steps<'_>, states: usize) -> Option<SearchRoom> {
    let states = steps.count.saturating_add(states);
    left.states = left.states.checked_sub(states)?;
    Some(SearchRoom {
        states,
        keeps: false,
        ..*left
    })
}

// Looks for an end along tracks. If none is found, the tracks of the slots that blocked the longest
// way are widened, and the search is repeated.
fn along(
    alloc: Global,
    steps: &Steps<'_>,
    tracks: &mut Tracks,
    open: usize,
    left: &mut SearchRoom,
    met: &mut Visited,
) -> Result<Option<Vec<usize>>, NoMemory> {
    for _ in 0..ROUNDS {
        let Some(room) = taken(left, steps, NEAR_STATES) else {
            return Ok(None);
        };
        let plan = Plan { open, seed: 0 };
        let found = search_by(alloc, steps, Some(&*tracks), plan, room, met)?;
        if let Found::Order(order) = found {
            return Ok(Some(order));
        }
        if !tracks.widen_all(alloc, steps, &met.blocked)? {
            return Ok(None);
        }
    }
    Ok(None)
}

// Looks for an end by orders in which chains reach each slot nearly in turn.
fn near(
    alloc: Global,
    steps: &Steps<'_>,
    plan: (usize, usize),
    left: &mut SearchRoom,
    met: &mut Visited,
) -> Result<Option<Vec<usize>>, NoMemory> {
    let (open, near) = plan;
    let mut tracks = Tracks::new(alloc, steps, near)?;
    if tracks.are_none() {
        return Ok(None);
    }
    along(alloc, steps, &mut tracks, open, left, met)
}

/// Looks for an end by plans that leave chains and orders out, through at most `left.states` states
/// in all.
pub(crate) fn played(
    alloc: Global,
    steps: &Steps<'_>,
    mut left: SearchRoom,
    met: &mut Visited,
) -> Result<Option<Vec<usize>>, NoMemory> {
    for plan in NEAR {
        if let Some(order) = near(alloc, steps, *plan, &mut left, met)? {
            return Ok(Some(order));
        }
    }
    for (seed, states) in PLANS {
        for open in OPEN {
            let Some(room) = taken(&mut left, steps, *states) else {
                return Ok(None);
            };
            let plan = Plan {
                open: *open,
                seed: *seed,
            };
            if let Found::Order(order) = search_by(alloc, steps, None, plan, room, met)? {
                return Ok(Some(order));
            }
        }
    }
    Ok(None)
}
