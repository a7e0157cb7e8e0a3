//! Reads of the log that is judged at a position: an answer, a close, a hold.
ghost use Rattle.check_flight.specs.Words.{Contains, IfSome, IsTrue, Some, length, take, all_completed, completed_of, Answered, FileClosed};
ghost use Rattle.check_flight.specs.Words.{LookAnswered, all_happenings};
ghost use Rattle.std.specs.Prelude.{◌≤◌};
ghost use Rattle.check_flight.specs.Judged.{log_in};
ghost use Rattle.check_flight.specs.States.{IsDenied, IsFoundClosed, IsHeld, IsLookDenied, IsOneDenied};

use crate::judged::JudgedLog;
use check_certificate::was_freed;
use fx_base::Closed;
use fx_chain::{Completion, Place};
use fx_flight::LogEvent;

// Checks whether the event at a position is this answer of a look.
fn is_found_at(events: &[LogEvent], position: usize, look: u32, found: Option<Closed>) -> bool
    ensures { IsTrue result → Contains (all_happenings events.now) (LookAnswered look found) }
{
    match events.get(position) {
        Some(LogEvent::Found { id, file }) => *id == look && *file == found,
        _ => false,
    }
}

impl<'a> JudgedLog<'a> {
    // Returns an answer of the log: the one at a place, if there is one.
    fn answer_at(&self, place: Place) -> Option<&Completion>
        ensures { IfSome result (λ c. Contains (log_in self.now)
            (Answered c.now.place.submission (completed_of c.now))) }
    {
        let at = self.positions.answer_of(place.submission, place.member);
        match self.events.get(at) {
            Some(LogEvent::Done(c)) => Some(c),
            _ => None,
        }
    }

    // Returns the answer of a look in the log: the file, or none. `None` if the log has no answer.
    fn found_by(&self, look: u32) -> Option<Option<Closed>>
        ensures { IfSome result (λ found. Contains (log_in self.now) (LookAnswered look found)) }
    {
        match self.events.get(self.positions.answer_of(look, 1)) {
            Some(LogEvent::Found { id, file }) if *id == look => Some(*file),
            _ => None,
        }
    }

    /// Returns the event that calls the call with this number, from 1.
    pub(crate) fn call(&self, id: u32) -> Option<&'a LogEvent> {
        let at = self.positions.calls.get((id as usize).checked_sub(1)?)?;
        self.events.get(*at)
    }

    /// Returns the answer at a place before a position, if there is one.
    pub(crate) fn answer_before(&self, place: Place, at: usize) -> Option<&'a Completion> {
        let answer = self.positions.answer_of(place.submission, place.member);
        match self.events.get(answer) {
            Some(LogEvent::Done(c)) if answer < at => Some(c),
            _ => None,
        }
    }

    /// Returns the file that a look found before a position, or none. `None` if it has no answer
    /// there.
    pub(crate) fn found_before(&self, look: u32, at: usize) -> Option<Option<Closed>> {
        let found = self.found_by(look)?;
        (self.positions.answer_of(look, 1) < at).then_some(found)
    }

    /// Checks whether the log has another answer of a look that finds this.
    pub(crate) fn is_look_denied(&self, look: u32, found: Option<Closed>) -> bool
        ensures { IsTrue result → IsLookDenied (log_in self.now) look found }
    {
        match self.found_by(look) {
            Some(seen) => seen != found,
            None => false,
        }
    }

    // Checks whether a file was closed before the event at a position.
    fn is_closed_before(&self, at: usize, file: Closed) -> bool
        requires { at ≤ length self.now.events.now }
        ensures { IsTrue result → Contains (take at (log_in self.now)) (FileClosed file) }
    {
        let Some(close) = self.positions.close_of(file) else {
            return false;
        };
        match self.events[..at].get(close) {
            Some(LogEvent::Closed(other)) => *other == file,
            _ => false,
        }
    }

    /// Checks whether a look found a file that was closed before the event at a position.
    pub(crate) fn is_found_closed(&self, at: usize, found: Option<Closed>) -> bool
        requires { at ≤ length self.now.events.now }
        ensures { IsTrue result → IsFoundClosed (take at (log_in self.now)) found }
    {
        match found {
            Some(file) => self.is_closed_before(at, file),
            None => false,
        }
    }

    /// Checks whether a look holds a file before the event at a position.
    pub(crate) fn is_held(&self, at: usize, file: Closed) -> bool
        requires { at ≤ length self.now.events.now }
        ensures { IsTrue result → IsHeld (take at (log_in self.now)) file }
    {
        let Some((look, position)) = self.positions.hold_of(at, file) else {
            return false;
        };
        if !is_found_at(&self.events[..at], position, look, Some(file)) {
            return false;
        }
        !was_freed(&self.events[..at], look)
    }

    // Checks whether the log has another answer at the place of this one.
    fn is_denied(&self, c: &Completion) -> bool
        ensures { IsTrue result → IsDenied (log_in self.now) (completed_of c.now) }
    {
        let Some(seen) = self.answer_at(c.place) else {
            return false;
        };
        seen.place == c.place && !seen.is_answer(c.place, c.res, &c.got)
    }

    /// Checks whether the log has another answer at the place of one of these.
    pub(crate) fn is_one_denied(&self, answered: &[Completion]) -> bool
        ensures { IsTrue result → IsOneDenied (log_in self.now) (all_completed answered.now) }
    {
        for c in answered {
            if self.is_denied(c) {
                return true;
            }
        }
        false
    }
}
