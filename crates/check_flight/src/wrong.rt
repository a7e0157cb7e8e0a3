//! The first event with which no flight is left, as a search finds it, and whether the beginning up
//! to it is refuted.
ghost use Rattle.check_flight.specs.Words.{IfOk, IsTrue};
ghost use Rattle.check_flight.specs.Judged.{HaveNoFlight, IsTableOf};

use crate::call::push_call;
use crate::judged::{ChainCall, JudgedLog};
use crate::reached::ReachedStates;
use crate::refute::{beginning_of, refute};
use crate::search::{SAVED_EVERY, Search};
use crate::state::{FlightState, first_state};
use fx_base::NoMemory;
use fx_order::Slots;

// A state from which beginnings of a log are tried, and the number of events before it.
#[derive(Drop)]
struct Start {
    at: usize,
    state: FlightState,
}

// Returns the state of a search that is to be tried from: some events before the furthest one that
// it reached.
fn start_of(log: &JudgedLog<'_>, slots: &Slots, search: &Search) -> Result<Start, NoMemory> {
    let alloc = log.setting.alloc;
    let mut start = Start {
        at: 0,
        state: first_state(alloc, slots)?,
    };
    for saved in &search.saved {
        if saved.at.saturating_add(SAVED_EVERY) <= search.furthest {
            start = Start {
                at: saved.at,
                state: saved.state.copy(alloc, saved.state.base, 0)?,
            };
        }
    }
    Ok(start)
}

// Checks whether a search finds a flight of the first `count` events. It tries a fifth of the moves
// that the search of the log tried, since it is made for many beginnings.
fn is_possible(
    log: &JudgedLog<'_>,
    calls: &[ChainCall<'_>],
    start: &Start,
    count: usize,
    most: usize,
) -> Result<bool, NoMemory> {
    if count > log.events.len() {
        return Ok(false);
    }
    let alloc = log.setting.alloc;
    let beginning = beginning_of(log, count);
    let state = start.state.copy(alloc, start.state.base, 0)?;
    Search::new(alloc).run(&beginning, calls, start.at, state, most / 5)
}

// Returns the number of events of the shortest beginning without a flight that a search finds, if a
// search of the log reached `low` events, and no further, and `high` events have no flight. It
// tries one less than `high` first, and then numbers near `low`.
fn shortest_wrong(
    log: &JudgedLog<'_>,
    calls: &[ChainCall<'_>],
    start: &Start,
    (low, high): (usize, usize),
    most: usize,
) -> Result<usize, NoMemory> {
    let last = high.saturating_sub(1);
    if last > low && is_possible(log, calls, start, last, most)? {
        return Ok(high);
    }
    let (mut low, mut high, mut ahead) = (low, high, 0usize);
    for _ in 0..128 {
        let left = high.saturating_sub(low);
        if left < 2 {
            break;
        }
        let middle = low.saturating_add(ahead.saturating_add(1).min(left / 2));
        if is_possible(log, calls, start, middle, most)? {
            low = middle;
            ahead = ahead.saturating_mul(2).saturating_add(1);
        } else {
            high = middle;
        }
    }
    Ok(high)
}

/// Returns the number of events of the shortest beginning without a flight that searches find.
/// `search` is one that found no flight of the log. The first `high` events have none.
pub(crate) fn wrong_beginning(
    log: &JudgedLog<'_>,
    slots: &Slots,
    search: &Search,
    high: usize,
    most: usize,
) -> Result<usize, NoMemory> {
    let alloc = log.setting.alloc;
    let mut calls = Vec::new(alloc);
    for event in log.events {
        if !push_call(&mut calls, event)? {
            return Ok(log.events.len());
        }
    }
    let start = start_of(log, slots, search)?;
    shortest_wrong(log, &calls, &start, (search.furthest, high), most)
}

/// Checks whether the states that flights of the first `count` events reach refute them, with at
/// most `most` states at each event.
pub(crate) fn is_refuted_alone(
    log: &JudgedLog<'_>,
    slots: &Slots,
    count: usize,
    most: usize,
) -> Result<bool, NoMemory>
    requires { IsTableOf log.now slots.now }
    ensures { IfOk result (λ yes. IsTrue yes → HaveNoFlight log.now slots.now count) }
{
    if count > log.events.len() {
        return Ok(false);
    }
    let first = ReachedStates::first(log.setting.alloc, slots)?;
    let at = refute(log, first, count, most)?;
    match at {
        Some(_) => Ok(true),
        None => Ok(false),
    }
}
