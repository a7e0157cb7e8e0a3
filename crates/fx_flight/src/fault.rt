//! Faults: why a list of events is not a log, whatever the accesses.
ghost use Rattle.fx_flight.specs.Words.{[], IfOk, None, list_all, all_asked};
ghost use Rattle.std.specs.Prelude.{◌≡◌};
ghost use Rattle.fx_flight.specs.Events.{all_happenings, happening_of};
ghost use Rattle.fx_flight.specs.Faults.{answer_fault, call_at, event_fault, fault_unless, fault_of_log, is_answered, is_one_chain, progress_after};
ghost use Rattle.fx_flight.specs.Faults.{set_call};

use crate::event::LogEvent;
use fx_base::NoMemory;
use fx_chain::{Completion, Place, Request, check};
use std::alloc::Global;

/// The reason why an event can't follow the events before it in a log.
#[derive(Clone, Copy, Debug, PartialEq, Eq)]
pub enum EventFault {
    /// The number of a call isn't 1 more than the number of calls before it. So no number occurs
    /// twice.
    WrongNumber,
    /// The requests of a call have a fault ([`fx_chain::check`]), or aren't one chain.
    NotOneChain,
    /// An answer without its call: no chain was called with this number, or no look.
    NotCalled,
    /// An answer of a chain that isn't that of its next member. A chain's answers come in the order
    /// of its members.
    OutOfTurn,
    /// A further answer of a chain whose members are all answered, or of a look.
    AnsweredTwice,
    /// The end of a hold that isn't there: no look with this number found a file, or it was freed.
    NotHeld,
    /// `Settled` while a call isn't answered.
    StillOpen,
}

/// An event with a fault.
#[derive(Clone, Copy, Debug, PartialEq, Eq)]
pub struct LogFault {
    /// The position of the event in the list, from 0.
    pub at: usize,
    /// The fault.
    pub fault: EventFault,
}

/// The progress of a call: what the log has of it so far.
#[derive(Clone, Copy, Debug)]
pub enum CallProgress {
    /// A chain: the number of its members, and of those that are answered.
    Chain(usize, usize),
    /// A look without its answer.
    Looking,
    /// A look that found a file, before its hold begins to end.
    Holding,
    /// A look that found no file, or whose hold begins to end.
    Over,
}

/// Returns the first event with a fault, or `None` if the events are a log.
///
/// # Errors
/// `NoMemory` if an allocation fails.
pub fn fault_of_log(alloc: Global, events: &[LogEvent]) -> Result<Option<LogFault>, NoMemory>
    ensures { IfOk result (λ fault. fault ≡ fault_of_log 0 [] (all_happenings events.now)) }
{
    let mut calls = Vec::new(alloc);
    for (i, event) in events.iter().enumerate() {
        if let Some(fault) = event_fault(&calls, event) {
            return Ok(Some(LogFault { at: i, fault }));
        }
        advance(&mut calls, event)?;
    }
    Ok(None)
}

// Returns the progress of the call with this number, from 1.
fn call_at(calls: &[CallProgress], id: u32) -> Option<CallProgress>
    ensures { result ≡ call_at calls.now id }
{
    if id == 0 {
        return None;
    }
    calls.get(id as usize - 1).copied()
}

// Checks whether the requests are accepted, and are one chain.
fn is_one_chain(requests: &[Request]) -> bool
    ensures { result ≡ is_one_chain (all_asked requests.now) }
{
    match check(requests) {
        Ok(chains) => chains == 1,
        Err(_) => false,
    }
}

// Returns the fault of an event by the progress of the calls before it.
fn event_fault(calls: &[CallProgress], event: &LogEvent) -> Option<EventFault>
    ensures { result ≡ event_fault calls.now (happening_of event.now) }
{
    match event {
        LogEvent::Call { id, chain } => {
            if *id as usize != calls.len() + 1 {
                return Some(EventFault::WrongNumber);
            }
            fault_unless(is_one_chain(chain.as_slice()), EventFault::NotOneChain)
        }
        LogEvent::Done(c) => answer_fault(c, call_at(calls, c.place.submission)),
        LogEvent::Look { id, slot: _ } => {
            fault_unless(*id as usize == calls.len() + 1, EventFault::WrongNumber)
        }
        LogEvent::Found { id, file: _ } => match call_at(calls, *id) {
            Some(CallProgress::Looking) => None,
            Some(CallProgress::Holding) | Some(CallProgress::Over) => Some(
                EventFault::AnsweredTwice,
            ),
            _ => Some(EventFault::NotCalled),
        },
        LogEvent::Free { id } => match call_at(calls, *id) {
            Some(CallProgress::Holding) => None,
            _ => Some(EventFault::NotHeld),
        },
        LogEvent::Closed(_) => None,
        LogEvent::Settled => fault_unless(are_answered(calls), EventFault::StillOpen),
    }
}

// Checks whether all calls are answered.
fn are_answered(calls: &[CallProgress]) -> bool
    ensures { result ≡ list_all is_answered calls.now }
{
    calls.iter().all(|call| call.is_answered())
}

// Returns `None` if the event fits, otherwise the fault.
fn fault_unless(fits: bool, fault: EventFault) -> Option<EventFault>
    ensures { result ≡ fault_unless fits fault }
{
    if fits { None } else { Some(fault) }
}

// Returns the fault of an answer by the progress of its call.
fn answer_fault(c: &Completion, call: Option<CallProgress>) -> Option<EventFault>
    ensures { result ≡ answer_fault c.now.place call }
{
    let Some(CallProgress::Chain(members, answered)) = call else {
        return Some(EventFault::NotCalled);
    };
    if answered >= members {
        return Some(EventFault::AnsweredTwice);
    }
    let place = c.place;
    let fits = place.chain == 1 && place.member as usize == answered + 1;
    fault_unless(fits, EventFault::OutOfTurn)
}

impl CallProgress {
    // Checks whether all members, or the look, are answered.
    fn is_answered(&self) -> bool
        ensures { result ≡ is_answered self.now }
    {
        match *self {
            CallProgress::Chain(members, answered) => answered >= members,
            CallProgress::Looking => false,
            CallProgress::Holding | CallProgress::Over => true,
        }
    }
}

// Sets the progress of the call with this number, from 1.
fn set_call(calls: &mut Vec<CallProgress>, id: u32, call: CallProgress)
    ensures { calls.new.items ≡ set_call calls.old.items id call }
{
    let i = (id as usize).saturating_sub(1);
    if i < calls.len() {
        calls[i] = call;
    }
}

// Changes the progress of the calls by an event without a fault.
fn advance(calls: &mut Vec<CallProgress>, event: &LogEvent) -> Result<(), NoMemory>
    requires { event_fault calls.old.items (happening_of event.now) ≡ None }
    ensures { IfOk result (λ _. calls.new.items
        ≡ progress_after calls.old.items (happening_of event.now)) }
{
    match event {
        LogEvent::Call { id: _, chain } => calls.push(CallProgress::Chain(chain.len(), 0))?,
        LogEvent::Look { id: _, slot: _ } => calls.push(CallProgress::Looking)?,
        LogEvent::Done(c) => {
            if let Some(CallProgress::Chain(members, answered)) = call_at(
                calls,
                c.place.submission,
            ) {
                set_call(
                    calls,
                    c.place.submission,
                    CallProgress::Chain(members, answered + 1),
                );
            }
        }
        LogEvent::Found { id, file } => {
            let found = match file {
                Some(_) => CallProgress::Holding,
                None => CallProgress::Over,
            };
            set_call(calls, *id, found);
        }
        LogEvent::Free { id } => set_call(calls, *id, CallProgress::Over),
        LogEvent::Closed(_) | LogEvent::Settled => {}
    }
    Ok(())
}
