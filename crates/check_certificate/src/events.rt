//! The events of a beginning of a log, and the marks of files.
ghost use Rattle.check_certificate.specs.Words.{Contains, IfSome, IsTrue, Some, option_map, completed_of, AllSettled, Answered, FileClosed, Freed};
ghost use Rattle.check_certificate.specs.Words.{LookAnswered, all_happenings, happening_of};
ghost use Rattle.std.specs.Prelude.{◌≡◌};
ghost use Rattle.check_certificate.specs.Forced.{IsOfCall};
ghost use Rattle.check_certificate.specs.Evidence.{IsCallAt, IsEventAt};
ghost use Rattle.check_certificate.specs.Said as said;

use crate::beginning::LogBeginning;
use fx_base::{Closed as File, Mark};
use fx_chain::Completion;
use fx_flight::LogEvent;

/// Returns the number of the call that may install the file: by its mark. Returns `None` for a file
/// of a registration.
pub(crate) fn call_of(file: File) -> Option<u32>
    ensures sound { IfSome result (λ id. IsOfCall id file) }
    ensures exact { result ≡ said.call_of file }
{
    match file.mark {
        Mark::Submitted { submission, .. } => Some(submission),
        _ => None,
    }
}

// Checks whether an event is the close of a file.
fn closes_file(event: &LogEvent, file: File) -> bool
    ensures { result ≡ said.closes_file file (happening_of event.now) }
{
    match event {
        LogEvent::Closed(other) => *other == file,
        _ => false,
    }
}

// Checks whether an event is the end of the hold of a look.
fn frees_look(event: &LogEvent, look: u32) -> bool
    ensures { result ≡ said.frees_look look (happening_of event.now) }
{
    match event {
        LogEvent::Free { id } => *id == look,
        _ => false,
    }
}

/// Checks whether one of the events is the close of a file.
pub fn was_closed(events: &[LogEvent], file: File) -> bool
    ensures sound { Contains (all_happenings events.now) (FileClosed file) → IsTrue result }
    ensures exact { result ≡ said.was_closed events.now file }
{
    for event in events {
        if closes_file(event, file) {
            return true;
        }
    }
    false
}

/// Checks whether one of the events is the end of the hold of a look.
pub fn was_freed(events: &[LogEvent], look: u32) -> bool
    ensures sound { Contains (all_happenings events.now) (Freed look) → IsTrue result }
    ensures exact { result ≡ said.was_freed events.now look }
{
    for event in events {
        if frees_look(event, look) {
            return true;
        }
    }
    false
}

impl LogBeginning<'_> {
    /// Returns the event at a position.
    pub(crate) fn event_at(&self, at: usize) -> Option<&LogEvent>
        ensures { option_map (λ event. happening_of event.now) result
            ≡ said.event_at (said.given_of self.now) at }
    {
        self.events.get(at)
    }

    /// Returns the number of the call that the event at a position begins.
    pub(crate) fn call_at(&self, at: usize) -> Option<u32>
        ensures sound { IfSome result (IsCallAt self.now at) }
        ensures exact { result ≡ said.call_at (said.given_of self.now) at }
    {
        let event = self.event_at(at)?;
        match event {
            LogEvent::Call { id, chain: _ } => Some(*id),
            LogEvent::Look { id, slot: _ } => Some(*id),
            _ => None,
        }
    }

    /// Returns the file whose close is the event at a position.
    pub(crate) fn close_at(&self, at: usize) -> Option<File>
        ensures sound { IfSome result (λ file. IsEventAt self.now at (FileClosed file)) }
        ensures exact { result ≡ said.close_at (said.given_of self.now) at }
    {
        match self.event_at(at)? {
            LogEvent::Closed(file) => Some(*file),
            _ => None,
        }
    }

    /// Returns the answer of a member that is the event at a position.
    pub(crate) fn done_at(&self, answer: usize) -> Option<&Completion>
        ensures sound { IfSome result (λ c. IsEventAt self.now answer
            (Answered c.now.place.submission (completed_of c.now))) }
        ensures exact { option_map (λ c. completed_of c.now) result
            ≡ said.done_at (said.given_of self.now) answer }
    {
        let event = self.event_at(answer)?;
        match event {
            LogEvent::Done(c) => Some(c),
            _ => None,
        }
    }

    /// Returns the number of the look, and the file that it found, that the event at a position
    /// answers.
    pub(crate) fn found_at(&self, at: usize) -> Option<(u32, File)>
        ensures sound { IfSome result (λ found. IsEventAt self.now at
            (LookAnswered found.0 (Some found.1))) }
        ensures exact { result ≡ said.found_at (said.given_of self.now) at }
    {
        match self.event_at(at)? {
            LogEvent::Found {
                id,
                file: Some(file),
            } => Some((*id, *file)),
            _ => None,
        }
    }

    /// Checks whether all was settled at a position.
    pub(crate) fn is_settled_at(&self, at: usize) -> bool
        ensures sound { IsTrue result → IsEventAt self.now at AllSettled }
        ensures exact { result ≡ said.is_settled (said.event_at (said.given_of self.now) at) }
    {
        match self.event_at(at) {
            Some(LogEvent::Settled) => true,
            _ => false,
        }
    }
}
