//! The beginning of a log as the search for a reason reads it: its calls, the positions of their
//! answers, and the files that answered calls installed at each slot.

use crate::removals::Remover;
use crate::shown::ShownAccess;
use check_certificate::{Evidence, contents_of};
use fx_base::{Catalogue, Closed as File, Mark, NoMemory};
use fx_chain::{Intent, Place, intent_of};
use fx_flight::LogEvent;
use std::alloc::Global;

/// The positions of a call's events.
#[derive(Drop)]
pub(crate) struct CallEvents {
    /// The position of the call.
    pub(crate) at: usize,
    /// The positions of its answers.
    pub(crate) answers: Vec<usize>,
}

/// The beginning of a log.
#[derive(Drop)]
pub(crate) struct Reading<'a> {
    /// The allocator.
    pub(crate) alloc: Global,
    /// The catalogue.
    pub(crate) catalogue: &'a Catalogue,
    /// The number of slots.
    pub(crate) size: u32,
    /// The events.
    pub(crate) events: &'a [LogEvent],
    /// The calls, by their numbers from 1.
    pub(crate) calls: Vec<CallEvents>,
    /// The accesses that installed files at each slot, by the positions of their answers.
    pub(crate) installs: Vec<Vec<ShownAccess>>,
    /// The accesses that may take a file from each slot, by the positions of their calls.
    pub(crate) removers: Vec<Vec<Remover>>,
    // The bytes of each entry of the catalogue.
    contents: Vec<Vec<u8>>,
}

/// Returns the place of the member that installs a file, or `None` for a file of a registration.
pub(crate) fn place_of(file: File) -> Option<Place> {
    match file.mark {
        Mark::Submitted {
            submission,
            chain,
            member,
            ..
        } => Some(Place {
            submission,
            chain,
            member,
        }),
        _ => None,
    }
}

/// Returns the number of the call to which an event belongs, or 0 if it belongs to none.
pub(crate) fn call_number(event: &LogEvent) -> u32 {
    match event {
        LogEvent::Call { id, .. } | LogEvent::Look { id, .. } | LogEvent::Found { id, .. } => *id,
        LogEvent::Done(c) => c.place.submission,
        _ => 0,
    }
}

impl<'a> Reading<'a> {
    /// Reads events at a table of `size` slots.
    pub(crate) fn of(
        alloc: Global,
        catalogue: &'a Catalogue,
        size: u32,
        events: &'a [LogEvent],
    ) -> Result<Reading<'a>, NoMemory> {
        let mut reading = Reading {
            alloc,
            catalogue,
            size,
            events,
            calls: Vec::new(alloc),
            installs: (0..size).map(|_| Vec::new(alloc)).collect(alloc)?,
            removers: (0..size).map(|_| Vec::new(alloc)).collect(alloc)?,
            contents: contents_of(alloc, catalogue)?,
        };
        reading.read_calls()?;
        reading.read_installs()?;
        reading.read_removers()?;
        Ok(reading)
    }

    // Notes the positions of each call's events.
    fn read_calls(&mut self) -> Result<(), NoMemory> {
        for (at, event) in self.events.iter().enumerate() {
            if matches!(event, LogEvent::Call { .. } | LogEvent::Look { .. }) {
                let answers = Vec::new(self.alloc);
                self.calls.push(CallEvents { at, answers })?;
                continue;
            }
            let call = (call_number(event) as usize).checked_sub(1);
            if let Some(call) = call
                && let Some(own) = self.calls.get_mut(call)
            {
                own.answers.push(at)?;
            }
        }
        Ok(())
    }

    // Notes the accesses that installed files.
    fn read_installs(&mut self) -> Result<(), NoMemory> {
        for at in 0..self.events.len() {
            for access in 0..self.accesses_at(at) {
                if let Some(shown) = self.shown_at(at, access)
                    && let Evidence::Installs(slot, _) = shown.shown
                    && let Some(own) = self.installs.get_mut(slot as usize)
                {
                    own.push(shown)?;
                }
            }
        }
        Ok(())
    }

    /// Returns the events of the call with a number, from 1.
    pub(crate) fn call(&self, id: u32) -> Option<&CallEvents> {
        self.calls.get((id as usize).checked_sub(1)?)
    }

    /// Returns the number of members of the call with a number, from 1.
    pub(crate) fn members(&self, id: u32) -> usize {
        match self.call(id).and_then(|call| self.events.get(call.at)) {
            Some(LogEvent::Call { chain, .. }) => chain.len(),
            _ => 0,
        }
    }

    /// Returns the position of the answer of a member.
    pub(crate) fn answer_of(&self, place: Place) -> Option<usize> {
        let call = self.call(place.submission)?;
        let answer = call.answers.get((place.member as usize).checked_sub(1)?)?;
        Some(*answer)
    }

    /// Returns the position of the answer of the member that installs a file, if the member failed.
    pub(crate) fn failure_of(&self, file: File) -> Option<usize> {
        let answer = self.answer_of(place_of(file)?)?;
        let is_failure = matches!(self.events.get(answer), Some(LogEvent::Done(c)) if c.res < 0);
        is_failure.then_some(answer)
    }

    /// Checks whether some call may install a file.
    pub(crate) fn may_install(&self, file: File) -> bool {
        let Some(place) = place_of(file) else {
            return true;
        };
        let Some(request) = self.request(place) else {
            return false;
        };
        (0..request.accesses()).any(|access| {
            match intent_of(self.catalogue, self.size, place, request, access) {
                Some(Intent::Put(_, own)) => own == file,
                Some(Intent::Allocate(own)) => own == file,
                _ => false,
            }
        })
    }

    /// Checks whether the event at a position answers a read with other bytes than those of a file.
    pub(crate) fn reads_other(&self, answer: usize, file: File) -> bool {
        let Some(LogEvent::Done(c)) = self.events.get(answer) else {
            return false;
        };
        match (
            self.request(c.place),
            self.contents.get(file.entry as usize),
        ) {
            (Some(request), Some(bytes)) => {
                request.is_read() && c.res >= 0 && request.part_read(bytes) != c.got.as_slice()
            }
            _ => false,
        }
    }

    /// Returns the access that installed a file, if its answer shows it.
    pub(crate) fn install_of(&self, file: File) -> Option<ShownAccess> {
        let answer = self.answer_of(place_of(file)?)?;
        for access in 0..self.accesses_at(answer) {
            if let Some(shown) = self.shown_at(answer, access)
                && let Evidence::Installs(_, other) = shown.shown
                && other == file
            {
                return Some(shown);
            }
        }
        None
    }

    /// Returns the position of the close of a file, from a position on.
    pub(crate) fn close_of(&self, from: usize, file: File) -> Option<usize> {
        (from..self.events.len()).find(
            |at| matches!(self.events.get(*at), Some(LogEvent::Closed(other)) if *other == file),
        )
    }
}
