//! The events of a log, and what they say.
ghost use Rattle.std.specs.Prelude.{◌≡◌};
ghost use Rattle.fx_chain.specs.Completed.{completed_of};
ghost use Rattle.fx_chain.specs.Operation.{all_asked, asked_of, operation_of};
ghost use Rattle.fx_flight.specs.Events.{all_happenings, happening_of};
ghost use Rattle.fx_judge.specs.Arrays.{answer_passed, are_known_flags, asked_passed, chain_passed, happening_passed, log_passed, named_passed};
ghost use Rattle.fx_judge.specs.Arrays.{opens_passed, operation_passed, passed_log, place_passed};
ghost use Rattle.fx_judge.specs.Reading.{ReadsOrFails};
ghost use Rattle.fx_judge.specs.declared.unread.LogRefusal.TheVariants.{Malformed};

use crate::codes::{
    EVENT_CALL, EVENT_CLOSED, EVENT_DONE, EVENT_EMPTY, EVENT_FOUND, EVENT_FREE, EVENT_LOOK,
    EVENT_SETTLED, FLAW_EVENT, FLAW_FILE, FLAW_FLAGS, FLAW_RANGE, FLAW_REQUEST, REQUEST_CLOSE,
    REQUEST_OPEN, REQUEST_OPEN_ANY, REQUEST_OPEN_MISSING, REQUEST_READ, REQUEST_UPDATE,
};
use crate::events::{YachtEvent, YachtRequest};
use crate::files::part;
use crate::logs::CallLog;
use crate::unread::{LogRefusal, Unread};
use bitflags::Flags;
use fx_base::{Catalogue, Closed};
use fx_chain::{Completion, Op, Place, Request, SqeFlags, Target};
use fx_flight::LogEvent;
use std::alloc::Global;

/// A log whose events are read.
#[derive(Drop)]
pub struct LogReader<'a> {
    pub alloc: Global,
    /// The files that the requests can open.
    pub catalogue: &'a Catalogue,
    /// The log.
    pub log: CallLog<'a>,
}

// Returns the refusal of the event at a position.
fn flawed(at: usize, flaw: u32) -> LogRefusal
    ensures { result ≡ Malformed at flaw }
{
    LogRefusal::Malformed { at, flaw }
}

// Checks whether each flag is one that is known.
fn are_known_flags(flags: u8) -> bool
    ensures { result ≡ are_known_flags flags }
{
    matches!(flags, 0 | 1 | 4 | 5 | 8 | 9 | 12 | 13)
}

// Returns the place of a member of a call.
fn place(call: u32, member: u32) -> Place
    ensures { result ≡ place_passed call member }
{
    Place {
        submission: call,
        chain: 1,
        member,
    }
}

// Each of these reads a part of the event at the position `at`.
impl LogReader<'_> {
    // Returns the operation of an open.
    fn open(&self, at: usize, file: u8, target: Target) -> Result<Op, Unread>
        ensures { ReadsOrFails operation_of result (opens_passed self.now.catalogue.now at file target) }
    {
        if u32::from(file) >= self.catalogue.len() {
            return Err(Unread::Refused(flawed(at, FLAW_FILE)));
        }
        let name = String::from_str(self.alloc, self.catalogue.name_of(file))?;
        Ok(Op::Open { name, target })
    }

    // Returns the operation of a request.
    fn op(&self, at: usize, request: &YachtRequest) -> Result<Op, Unread>
        ensures { ReadsOrFails operation_of result
            (operation_passed (passed_log self.now.log) self.now.catalogue.now at request.now) }
    {
        let (slot, first, count) = (request.slot, request.first, request.count);
        match request.kind {
            REQUEST_OPEN => self.open(at, request.file, Target::Slot(slot)),
            REQUEST_OPEN_ANY => self.open(at, request.file, Target::Any),
            REQUEST_OPEN_MISSING => Ok(Op::Open {
                name: String::new(self.alloc),
                target: Target::Any,
            }),
            REQUEST_READ => Ok(Op::Read {
                slot,
                off: first,
                len: count,
            }),
            REQUEST_CLOSE => Ok(Op::Close { slot }),
            REQUEST_UPDATE => {
                let list = part(self.log.entries, first, count, flawed(at, FLAW_RANGE))?;
                let list = Vec::from_slice(self.alloc, list)?;
                Ok(Op::Update { off: slot, list })
            }
            _ => Err(Unread::Refused(flawed(at, FLAW_REQUEST))),
        }
    }

    // Returns a request.
    fn request(&self, at: usize, request: &YachtRequest) -> Result<Request, Unread>
        ensures { ReadsOrFails asked_of result
            (asked_passed (passed_log self.now.log) self.now.catalogue.now at request.now) }
    {
        if !are_known_flags(request.flags) {
            return Err(Unread::Refused(flawed(at, FLAW_FLAGS)));
        }
        let flags = SqeFlags::from_bits_retain(request.flags);
        let op = self.op(at, request)?;
        Ok(Request { op, flags })
    }

    // Returns the requests of a call.
    fn chain(&self, at: usize, event: &YachtEvent) -> Result<Vec<Request>, Unread>
        ensures { ReadsOrFails (λ chain. all_asked chain.items) result
            (chain_passed (passed_log self.now.log) self.now.catalogue.now at event.now) }
    {
        let flaw = flawed(at, FLAW_RANGE);
        let requests = part(self.log.requests, event.first, event.count, flaw)?;
        let mut chain = Vec::new(self.alloc);
        for request in requests {
            chain.push(self.request(at, request)?)?;
        }
        Ok(chain)
    }

    // Returns the answer of a member.
    fn answer(&self, at: usize, event: &YachtEvent) -> Result<Completion, Unread>
        ensures { ReadsOrFails completed_of result
            (answer_passed (passed_log self.now.log) at event.now) }
    {
        let flaw = flawed(at, FLAW_RANGE);
        let got = part(self.log.bytes, event.first, event.count, flaw)?;
        Ok(Completion {
            place: place(event.call, event.member),
            res: event.res,
            got: Vec::from_slice(self.alloc, got)?,
        })
    }

    // Returns the file that an event names.
    fn file(&self, at: usize, event: &YachtEvent) -> Result<Closed, Unread>
        ensures { ReadsOrFails (λ file. file) result
            (named_passed self.now.catalogue.now at event.now) }
    {
        if u32::from(event.file) >= self.catalogue.len() {
            return Err(Unread::Refused(flawed(at, FLAW_FILE)));
        }
        Ok(place(event.by_call, event.by_member).installed(event.by_entry, event.file))
    }

    // Returns what an event says.
    fn event(&self, at: usize, event: &YachtEvent) -> Result<LogEvent, Unread>
        ensures { ReadsOrFails happening_of result
            (happening_passed (passed_log self.now.log) self.now.catalogue.now at event.now) }
    {
        let id = event.call;
        match event.kind {
            EVENT_CALL => Ok(LogEvent::Call {
                id,
                chain: self.chain(at, event)?,
            }),
            EVENT_DONE => Ok(LogEvent::Done(self.answer(at, event)?)),
            EVENT_LOOK => Ok(LogEvent::Look {
                id,
                slot: event.slot,
            }),
            EVENT_FOUND => Ok(LogEvent::Found {
                id,
                file: Some(self.file(at, event)?),
            }),
            EVENT_EMPTY => Ok(LogEvent::Found { id, file: None }),
            EVENT_FREE => Ok(LogEvent::Free { id }),
            EVENT_CLOSED => Ok(LogEvent::Closed(self.file(at, event)?)),
            EVENT_SETTLED => Ok(LogEvent::Settled),
            _ => Err(Unread::Refused(flawed(at, FLAW_EVENT))),
        }
    }

    /// Returns what the events say.
    ///
    /// # Errors
    /// `Malformed` of the first event that can't be read. `NoMemory` if an allocation fails.
    pub fn events(&self) -> Result<Vec<LogEvent>, Unread>
        ensures { ReadsOrFails (λ said. all_happenings said.items) result
            (log_passed (passed_log self.now.log) self.now.catalogue.now) }
    {
        let mut said = Vec::new(self.alloc);
        for event in self.log.events {
            said.push(self.event(said.len(), event)?)?;
        }
        Ok(said)
    }
}
