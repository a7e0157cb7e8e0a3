//! The accesses that the answers of a log show, as the search for a reason sees them. The checker
//! of certificates decides again whether an answer shows them.

use crate::reading::{Reading, call_number};
use check_certificate::{Evidence, evidence_of};
use fx_base::{Closed as File, Errno};
use fx_chain::{Completion, Place, Request, intent_of};
use fx_flight::LogEvent;

/// An access that an answer shows.
#[derive(Clone, Copy, Debug)]
pub(crate) struct ShownAccess {
    /// The position of the call.
    pub(crate) call: usize,
    /// The position of the answer.
    pub(crate) answer: usize,
    /// The number of the access among those of its member.
    pub(crate) access: usize,
    /// The change or the finding.
    pub(crate) shown: Evidence,
}

/// Returns the slot of an access. Returns `None` if it looks at all slots.
pub(crate) fn slot_of(shown: Evidence) -> Option<u32> {
    match shown {
        Evidence::Sees(slot) => Some(slot),
        _ => shown.left().map(|(slot, _)| slot),
    }
}

impl Reading<'_> {
    /// Returns the request of a member of a call.
    pub(crate) fn request(&self, place: Place) -> Option<&Request> {
        let call = self.call(place.submission)?;
        let LogEvent::Call { id: _, chain } = self.events.get(call.at)? else {
            return None;
        };
        chain
            .as_slice()
            .get((place.member as usize).checked_sub(1)?)
    }

    // Returns the number of accesses that the event at a position may show, at most.
    pub(crate) fn accesses_at(&self, at: usize) -> usize {
        match self.events.get(at) {
            Some(LogEvent::Done(c)) => self.request(c.place).map_or(0, |it| it.accesses()),
            Some(LogEvent::Found { .. }) => 1,
            _ => 0,
        }
    }

    // Returns what the answer of a member shows of one of its accesses.
    fn shown_by_member(&self, c: &Completion, access: usize) -> Option<Evidence> {
        if c.is_refusal(c.place, Errno::ECANCELED) || c.is_refusal(c.place, Errno::ENOMEM) {
            return None;
        }
        let request = self.request(c.place)?;
        let intent = intent_of(self.catalogue, self.size, c.place, request, access)?;
        Some(evidence_of(intent, c))
    }

    // Returns what the answer of a look shows of its access.
    fn shown_by_look(&self, call: usize, found: Option<File>) -> Option<Evidence> {
        let LogEvent::Look { id: _, slot } = self.events.get(call)? else {
            return None;
        };
        let shown = found.map_or(
            Evidence::Empties(*slot),
            |file| Evidence::Finds(*slot, file),
        );
        (*slot < self.size).then_some(shown)
    }

    /// Returns the access with a number that the event at a position shows.
    pub(crate) fn shown_at(&self, answer: usize, access: usize) -> Option<ShownAccess> {
        let event = self.events.get(answer)?;
        let call = self.call(call_number(event))?.at;
        let shown = match event {
            LogEvent::Done(c) => self.shown_by_member(c, access)?,
            LogEvent::Found { id: _, file } => self.shown_by_look(call, *file)?,
            _ => return None,
        };
        Some(ShownAccess {
            call,
            answer,
            access,
            shown,
        })
    }
}
