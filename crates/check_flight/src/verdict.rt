//! The judge of a log of calls in flight.
ghost use Rattle.check_flight.specs.Words.{[], ℕ, IfOk, IfSome, IsTrue, Option, Some, length, take, IsCatalogue, ring_of_slots, all_happenings};
ghost use Rattle.check_flight.specs.Words.{IsLegalBy, Faulty, Legal, NotLegal, LogReason};
ghost use Rattle.std.specs.Prelude.{◌≡◌, ◌↔◌, ◌+◌, ◌<◌, ◌≤◌, ◌^◌};
ghost use Rattle.fx_flight.specs.Faults.{fault_of_log};
ghost use Rattle.check_flight.specs.Judged.{log_in, HaveFlight, HaveNoFlight, IsReachedFrom, IsRight, IsTableOf};
ghost use Rattle.check_flight.specs.Reasons.{IsReasonOf};
ghost use Rattle.check_flight.specs.States.{HasNoFlightBy};

use crate::by_slot::wrong_by_slot;
use crate::judged::JudgedLog;
use crate::limits::{LogLimits, MovesLeft};
use crate::player::is_flight;
use crate::positions::positions_in;
use crate::propose::propose;
use crate::reached::ReachedStates;
use crate::refute::{beginning_of, refute};
use crate::search::Search;
use crate::wrong::{is_refuted_alone, wrong_beginning};
use check_reason::{LogReason, explain};
use check_search::Limits;
use fx_base::{Catalogue, Errno, NoMemory};
use fx_flight::{LogEvent, LogFault, fault_of_log};
use fx_order::{OrderSetting, Slots};
use std::alloc::Global;

/// The verdict on a list of events.
#[derive(Drop)]
pub enum FlightVerdict {
    /// The events aren't a log.
    Faulty(LogFault),
    /// Up to and with the event at this position, from 0, the log has no flight in which each
    /// request finds memory, or none by whole updates if that is required.
    NotLegal {
        /// The position of the event.
        at: usize,
        /// The reason, if one is found. It refutes flights in which requests lack memory, too.
        reason: Option<LogReason>,
    },
    /// The log has a flight, by whole updates if that is required.
    Legal,
    /// Nothing was shown: the log may be legal or not.
    Undecided,
}

// Returns the largest number of states at an event, and of those that a search goes back over: a
// state counts as 88 bytes for each slot, and 768 beside them.
fn room_for(slots: &Slots, limits: Limits) -> usize {
    let weight = slots.at.len().saturating_mul(88).saturating_add(768);
    limits
        .states
        .min(limits.bytes.checked_div(weight).unwrap_or(0))
}

// The largest number of states that the first search for a flight goes back over.
const FIRST_STATES: usize = 10_000;
// The same of the second search.
const SECOND_STATES: usize = 100_000;
// The largest number of states at an event by which a beginning is refuted at once.
const FEW_STATES: usize = 1_000;

// The number of events from the front that is saved to the one after which no state is left.
const SAVED_BEFORE: usize = 1_000;

// Returns the states that flights of each beginning of the log with at least `count` events reach
// some events before that, or before the first event if there are too many.
fn saved_before<'a>(
    log: &JudgedLog<'a>,
    slots: &Slots,
    count: usize,
    most: usize,
) -> Result<ReachedStates<'a>, NoMemory>
    requires size { IsTableOf log.now slots.now }
    requires count { count ≤ length log.now.events.now }
    ensures { IfOk result (λ saved. (longer : ℕ) → count ≤ longer
        → IsReachedFrom log.now slots.now (take longer (log_in log.now)) saved) }
{
    let alloc = log.setting.alloc;
    let beginning = beginning_of(log, count.saturating_sub(SAVED_BEFORE));
    let first = ReachedStates::first(alloc, slots)?;
    match first.go_on(&beginning, most)? {
        Some(saved) => Ok(saved),
        None => ReachedStates::first(alloc, slots),
    }
}

// Checks whether the first `count` events are refuted from a saved front.
fn is_refuted_from<'a>(
    log: &JudgedLog<'a>,
    slots: &Slots,
    saved: &ReachedStates<'a>,
    count: usize,
    most: usize,
) -> Result<bool, NoMemory>
    requires size { IsTableOf log.now slots.now }
    requires count { count ≤ length log.now.events.now }
    requires saved { IsReachedFrom log.now slots.now (take count (log_in log.now)) saved.now }
    ensures { IfOk result (λ yes. IsTrue yes → HaveNoFlight log.now slots.now count) }
{
    let from = saved.copy(log.setting.alloc)?;
    let at = refute(log, from, count, most)?;
    match at {
        Some(_) => Ok(true),
        None => Ok(false),
    }
}

// Returns a number of events from `low` on, below `high`, to try next: `ahead` more than `low`, and
// at most half of the way.
fn next_count(low: usize, high: usize, ahead: usize) -> usize
    requires { low < high }
    ensures from { low ≤ result }
    ensures below { result < high }
{
    let half = (high - low) / 2;
    if ahead < half {
        low + ahead
    } else {
        low + half
    }
}

// Returns the number of events of the shortest beginning that is refuted from a saved front, of
// those with at least `low` events, and at most `high`, a number with which it is refuted. It tries
// numbers near `low` first.
fn shortest_refuted<'a>(
    log: &JudgedLog<'a>,
    slots: &Slots,
    saved: &ReachedStates<'a>,
    low: usize,
    high: usize,
    most: usize,
) -> Result<usize, NoMemory>
    requires size { IsTableOf log.now slots.now }
    requires high { high ≤ length log.now.events.now }
    requires refuted { HaveNoFlight log.now slots.now high }
    requires saved { (longer : ℕ) → low ≤ longer
        → IsReachedFrom log.now slots.now (take longer (log_in log.now)) saved.now }
    ensures { IfOk result (HaveNoFlight log.now slots.now) }
{
    let (mut low, mut high, mut ahead) = (low, high, 0usize);
    for _ in 0..128 {
        if low >= high {
            break;
        }
        let middle = next_count(low, high, ahead);
        if is_refuted_from(log, slots, saved, middle, most)? {
            high = middle;
        } else {
            low = middle + 1;
            ahead = ahead.saturating_mul(2).saturating_add(1);
        }
    }
    Ok(high)
}

// Returns the number of events of a beginning of the log that was refuted, the shortest one that
// was found, or `None` if the log wasn't refuted. The beginning of `hint` events is tried first.
fn refuted_beginning(
    log: &JudgedLog<'_>,
    slots: &Slots,
    hint: usize,
    most: usize,
) -> Result<Option<usize>, NoMemory>
    requires { IsTableOf log.now slots.now }
    ensures { IfOk result (λ count. IfSome count (HaveNoFlight log.now slots.now)) }
{
    if is_refuted_alone(log, slots, hint, most)? {
        return Ok(Some(hint));
    }
    let count = log.events.len();
    let first = ReachedStates::first(log.setting.alloc, slots)?;
    let Some(at) = refute(log, first, count, most)? else {
        return Ok(None);
    };
    let low = at.saturating_add(1).min(count);
    let saved = saved_before(log, slots, low, most)?;
    let shortest = shortest_refuted(log, slots, &saved, low, count, most)?;
    Ok(Some(shortest))
}

// Checks whether the log has a flight, by a search that goes back over at most `most` states.
fn has_flight(
    log: &JudgedLog<'_>,
    slots: &Slots,
    most: usize,
    search: &mut Search,
) -> Result<bool, NoMemory>
    requires { log.now.setting.size ≡ length slots.now.at.items }
    ensures { IfOk result (λ yes. IsTrue yes → HaveFlight log.now slots.now) }
{
    if !propose(log, slots, most, search)? {
        return Ok(false);
    }
    is_flight(log, slots, &search.plan)
}

// Returns the verdict on a log whose first `count` events are refuted, or are if a reason is found.
// If a search lacked a move, they may not be the shortest beginning: the log is undecided.
fn explained(
    log: &JudgedLog<'_>,
    slots: &Slots,
    count: usize,
    is_refuted: bool,
) -> Result<FlightVerdict, NoMemory>
    requires { IsTrue is_refuted → HaveNoFlight log.now slots.now count }
    ensures { IfOk result (IsRight log.now slots.now) }
{
    if count == 0 {
        return Ok(FlightVerdict::Undecided);
    }
    if log.moves.are_lacking() {
        return Ok(FlightVerdict::Undecided);
    }
    let setting = &log.setting;
    let reason = explain(setting.alloc, setting.catalogue, slots, log.events, count)?;
    if !is_refuted && reason.is_none() {
        return Ok(FlightVerdict::Undecided);
    }
    let at = count - 1;
    Ok(FlightVerdict::NotLegal { at, reason })
}

// Decides whether the log has a flight, by searches with at most `most` states, if quicker ones
// didn't: they found none, and that the beginning of `hint` events has none.
fn decide_wholly(
    log: &JudgedLog<'_>,
    slots: &Slots,
    hint: usize,
    most: usize,
) -> Result<FlightVerdict, NoMemory>
    requires { IsTableOf log.now slots.now }
    ensures { IfOk result (IsRight log.now slots.now) }
{
    let mut search = Search::new(log.setting.alloc);
    let yes = has_flight(log, slots, most, &mut search)?;
    if yes {
        return Ok(FlightVerdict::Legal);
    }
    let shortest = refuted_beginning(log, slots, hint, most)?;
    match shortest {
        Some(count) => explained(log, slots, count, true),
        None => Ok(FlightVerdict::Undecided),
    }
}

// Returns the verdict on a log of which a search found no flight of the first `count` events, and
// none of the first `high`.
fn explained_first(
    log: &JudgedLog<'_>,
    slots: &Slots,
    count: usize,
    high: usize,
) -> Result<FlightVerdict, NoMemory>
    requires { IsTableOf log.now slots.now }
    ensures { IfOk result (IsRight log.now slots.now) }
{
    let verdict = explained(log, slots, count, false)?;
    if count >= high || !matches!(verdict, FlightVerdict::Undecided) {
        return Ok(verdict);
    }
    if is_refuted_alone(log, slots, count, FEW_STATES)? {
        return explained(log, slots, count, true);
    }
    let is_settled = matches!(log.events.last(), Some(LogEvent::Settled));
    if high < log.events.len() || is_settled {
        return explained(log, slots, high, false);
    }
    Ok(verdict)
}

// Decides whether the log has a flight, by searches with at most `quick` states and a certificate.
// If nothing was shown, the hint is the number of events of a beginning of which they found none.
fn decide_quickly(
    log: &JudgedLog<'_>,
    slots: &Slots,
    quick: usize,
    hint: &mut usize,
) -> Result<FlightVerdict, NoMemory>
    requires { IsTableOf log.now slots.now }
    ensures { IfOk result (IsRight log.now slots.now) }
{
    let mut search = Search::new(log.setting.alloc);
    let yes = has_flight(log, slots, quick, &mut search)?;
    if yes {
        return Ok(FlightVerdict::Legal);
    }
    if log.moves.are_lacking() {
        return Ok(FlightVerdict::Undecided);
    }
    let (by_slot, all) = (wrong_by_slot(log, slots)?, log.events.len());
    let is_by_slot = search.furthest < by_slot && by_slot <= all;
    let high = if is_by_slot { by_slot } else { all };
    *hint = wrong_beginning(log, slots, &search, high, quick)?;
    explained_first(log, slots, *hint, high)
}

// Decides whether the log has a flight, by quick searches first.
fn decide(log: &JudgedLog<'_>, slots: &Slots, most: usize) -> Result<FlightVerdict, NoMemory>
    requires { IsTableOf log.now slots.now }
    ensures { IfOk result (IsRight log.now slots.now) }
{
    let mut hint = 0;
    let first = decide_quickly(log, slots, most.min(FIRST_STATES), &mut hint)?;
    if !matches!(first, FlightVerdict::Undecided) || log.moves.are_lacking() {
        return Ok(first);
    }
    let second = decide_quickly(log, slots, most.min(SECOND_STATES), &mut hint)?;
    if !matches!(second, FlightVerdict::Undecided) || log.moves.are_lacking() {
        return Ok(second);
    }
    decide_wholly(log, slots, hint, most)
}

// Checks whether a request of the log lacked memory (-12).
fn lacks_memory(events: &[LogEvent]) -> bool {
    let no_memory = -Errno::ENOMEM.code();
    for event in events {
        if matches!(event, LogEvent::Done(c) if c.res == no_memory) {
            return true;
        }
    }
    false
}

/// Judges the events of a log whose table has these slots at first: its size is constant, and no
/// file of it is closed. With `whole` each update is one step, not one for each entry. A log with
/// an answer -12 is undecided. Whatever the number of moves is, the verdict is that of a judgement
/// without such a limit, or undecided.
///
/// # Errors
/// `NoMemory` if an allocation fails.
pub fn judge_events(
    alloc: Global,
    catalogue: &Catalogue,
    slots: &Slots,
    events: &[LogEvent],
    whole: bool,
    limits: LogLimits,
) -> Result<FlightVerdict, NoMemory>
    requires catalogue { IsCatalogue catalogue.now }
    requires slots { length slots.now.at.items < 2 ^ 31 }
    ensures fault { IfOk result (λ verdict. (fault : LogFault)
        → (verdict ≡ Faulty fault)
        ↔ (fault_of_log 0 [] (all_happenings events.now) ≡ Some fault)) }
    ensures legal { IfOk result (λ verdict. verdict ≡ Legal → (submissions registrations : ℕ)
        → IsLegalBy whole (ring_of_slots catalogue.now slots.now submissions registrations)
        (all_happenings events.now)) }
    ensures not_legal { IfOk result (λ verdict. (at : ℕ) (reason : Option LogReason)
        → verdict ≡ NotLegal at reason → (submissions registrations : ℕ)
        → HasNoFlightBy whole (ring_of_slots catalogue.now slots.now submissions registrations)
        (all_happenings (take (at + 1) events.now))) }
    ensures reason { IfOk result (λ verdict. (at : ℕ) (reason : LogReason)
        → verdict ≡ NotLegal at (Some reason)
        → IsReasonOf catalogue.now slots.now events.now (at + 1) reason) }
{
    if let Some(fault) = fault_of_log(alloc, events)? {
        return Ok(FlightVerdict::Faulty(fault));
    }
    if lacks_memory(events) {
        return Ok(FlightVerdict::Undecided);
    }
    let positions = positions_in(alloc, events)?;
    let moves = MovesLeft::new(limits.moves);
    let log = JudgedLog {
        setting: OrderSetting {
            alloc,
            catalogue,
            size: slots.at.len() as u32,
        },
        events,
        whole,
        positions: &positions,
        moves: &moves,
    };
    let most = room_for(slots, limits.search);
    decide(&log, slots, most)
}
