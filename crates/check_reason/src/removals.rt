//! The accesses that may take a file from each slot, by what their requests intend.

use crate::reading::{Reading, place_of};
use fx_base::{Closed as File, NoMemory};
use fx_chain::{Intent, Place, Request, intent_of};
use fx_flight::LogEvent;

/// An access that a request intends, and that takes a file from its slot if there is one.
#[derive(Clone, Copy, Debug)]
pub(crate) struct Remover {
    /// The position of the call.
    pub(crate) call: usize,
    /// The position of the answer of its member, or `usize::MAX`.
    pub(crate) answer: usize,
    /// True for the first member of the call.
    pub(crate) is_first: bool,
    /// The number of the access among those of its member.
    pub(crate) access: usize,
    /// The file that it installs.
    pub(crate) file: Option<File>,
    /// True if the member failed: then it took no file.
    pub(crate) has_failed: bool,
}

// Returns the slot from which an access may take a file, and the file that it installs.
fn slot_taken(intent: Intent) -> Option<(u32, Option<File>)> {
    match intent {
        Intent::Put(slot, file) => Some((slot, Some(file))),
        Intent::Clear(slot) | Intent::Take(slot) => Some((slot, None)),
        _ => None,
    }
}

/// Returns the place of a member of a call, by its number from 0.
pub(crate) fn member_of(id: u32, n: usize) -> Option<Place> {
    let member = u32::try_from(n).ok()?.saturating_add(1);
    Some(Place {
        submission: id,
        chain: 1,
        member,
    })
}

impl Reading<'_> {
    /// Returns the slot at which a call of the log may install a file, if it isn't any slot.
    pub(crate) fn slot_of(&self, file: File) -> Option<u32> {
        let place = place_of(file)?;
        let request = self.request(place)?;
        for access in 0..request.accesses() {
            let intent = intent_of(self.catalogue, self.size, place, request, access);
            if let Some(Intent::Put(slot, other)) = intent
                && other == file
            {
                return Some(slot);
            }
        }
        None
    }

    // Notes the accesses of a member of a call, by its number from 0.
    fn note_member(&mut self, id: u32, n: usize, request: &Request) -> Result<(), NoMemory> {
        let (Some(place), Some(call)) = (member_of(id, n), self.call(id)) else {
            return Ok(());
        };
        let (call, answer) = (call.at, call.answers.get(n).copied().unwrap_or(usize::MAX));
        let has_failed = matches!(self.events.get(answer), Some(LogEvent::Done(c)) if c.res < 0);
        for access in 0..request.accesses() {
            let intent = intent_of(self.catalogue, self.size, place, request, access);
            if let Some(intent) = intent
                && let Some((slot, file)) = slot_taken(intent)
                && let Some(own) = self.removers.get_mut(slot as usize)
            {
                own.push(Remover {
                    call,
                    answer,
                    is_first: n == 0,
                    access,
                    file,
                    has_failed,
                })?;
            }
        }
        Ok(())
    }

    /// Notes the accesses of all calls.
    pub(crate) fn read_removers(&mut self) -> Result<(), NoMemory> {
        let events = self.events;
        for event in events {
            if let LogEvent::Call { id, chain } = event {
                for (n, request) in chain.iter().enumerate() {
                    self.note_member(*id, n, request)?;
                }
            }
        }
        Ok(())
    }
}
