//! The positions of answers, closes and holds in a log. Each is a hint: nothing is proved of it.
ghost use Rattle.std.specs.Prelude.{◌≡◌};
ghost use Rattle.check_flight.specs.Player.{file_number};

use fx_base::{Closed, Mark, NoMemory};
use fx_flight::LogEvent;
use indexmap::IndexSet;
use std::alloc::Global;

// The position of the close of a file, or a very large number, and the numbers of the looks that
// found it.
#[derive(Drop)]
struct FilePositions {
    closed: usize,
    found: Vec<u32>,
}

// The number of the last looks that are gone over.
const LAST_LOOKS: usize = 32;

/// The positions of answers, closes and holds in a log.
#[derive(Drop)]
pub(crate) struct LogPositions {
    /// The positions of the calls.
    pub(crate) calls: Vec<usize>,
    /// The positions of the answers, by call and member. A look has that of its answer, and that of
    /// the end of its hold.
    pub(crate) answers: Vec<Vec<usize>>,
    // The numbers of the files that are closed or found, and their positions.
    numbers: IndexSet<u64>,
    files: Vec<FilePositions>,
}

/// Returns a number of a file: each file that a log installs has a number of its own.
pub(crate) fn file_number(file: Closed) -> u64
    ensures { result ≡ file_number file }
{
    match file.mark {
        Mark::Registered { k: _, i } => 35_184_372_088_832 + i as u64,
        Mark::Submitted {
            submission,
            chain: _,
            member,
            entry,
        } => {
            let place = member % 64 * 64 + entry % 64;
            submission as u64 * 4096 + place as u64
        }
    }
}

/// Returns the call and the member that install a file, both 0 for a file of a registration.
pub(crate) fn install_place(file: Closed) -> (u32, u32) {
    match file.mark {
        Mark::Submitted {
            submission,
            member,
            ..
        } => (submission, member),
        Mark::Registered { .. } => (0, 0),
    }
}

impl LogPositions {
    // Notes the position of an answer of a call, or of the end of its hold.
    fn add_answer(&mut self, id: u32, at: usize) -> Result<(), NoMemory> {
        let call = (id as usize).saturating_sub(1);
        if let Some(own) = self.answers.get_mut(call) {
            own.push(at)?;
        }
        Ok(())
    }

    // Returns the position of a file in the list, which it is appended to if it is new.
    fn add_file(&mut self, alloc: Global, file: Closed) -> Result<usize, NoMemory> {
        let (position, is_new) = self.numbers.insert_full(file_number(file))?;
        if is_new {
            self.files.push(FilePositions {
                closed: usize::MAX,
                found: Vec::new(alloc),
            })?;
        }
        Ok(position)
    }

    // Notes the position of an event.
    fn add(&mut self, alloc: Global, event: &LogEvent, at: usize) -> Result<(), NoMemory> {
        match event {
            LogEvent::Call { .. } | LogEvent::Look { .. } => {
                self.calls.push(at)?;
                self.answers.push(Vec::new(alloc))?;
                Ok(())
            }
            LogEvent::Done(c) => self.add_answer(c.place.submission, at),
            LogEvent::Free { id } => self.add_answer(*id, at),
            LogEvent::Found { id, file } => {
                if let Some(file) = file {
                    let position = self.add_file(alloc, *file)?;
                    if let Some(own) = self.files.get_mut(position) {
                        own.found.push(*id)?;
                    }
                }
                self.add_answer(*id, at)
            }
            LogEvent::Closed(file) => {
                let position = self.add_file(alloc, *file)?;
                if let Some(own) = self.files.get_mut(position) {
                    own.closed = own.closed.min(at);
                }
                Ok(())
            }
            LogEvent::Settled => Ok(()),
        }
    }

    // Returns the positions of a file, if it is closed or found.
    fn of(&self, file: Closed) -> Option<&FilePositions> {
        let number = self.numbers.get_index_of(&file_number(file))?;
        self.files.get(number)
    }

    /// Returns the position of the close of a file, if it is closed.
    pub(crate) fn close_of(&self, file: Closed) -> Option<usize> {
        Some(self.of(file)?.closed)
    }

    /// Returns a look that holds a file after the first `at` events, and the position of its
    /// answer, if there is one.
    pub(crate) fn hold_of(&self, at: usize, file: Closed) -> Option<(u32, usize)> {
        for look in &self.of(file)?.found {
            let found = self.answer_of(*look, 1);
            if found < at && at <= self.answer_of(*look, 2) {
                return Some((*look, found));
            }
        }
        None
    }

    /// Checks whether a look finds the file that is called from a position on, and answered before
    /// another one. It goes over the last looks that found the file.
    pub(crate) fn is_found_after(&self, file: Closed, at: usize, end: usize) -> bool {
        let Some(own) = self.of(file) else {
            return false;
        };
        own.found.iter().rev().take(LAST_LOOKS).any(|look| {
            let call = self.calls.get((*look as usize).saturating_sub(1));
            call.is_some_and(|call| *call >= at) && self.answer_of(*look, 1) < end
        })
    }

    /// Returns the position of an answer, by its call and its member, or a very large number. The
    /// end of a look's hold is its member 2.
    pub(crate) fn answer_of(&self, id: u32, member: u32) -> usize {
        let call = (id as usize).saturating_sub(1);
        let member = (member as usize).saturating_sub(1);
        if let Some(own) = self.answers.get(call)
            && let Some(position) = own.get(member)
        {
            return *position;
        }
        usize::MAX
    }

    /// Returns the position of the first answer of a call, by its number from 0, from a position
    /// on, or a very large number.
    pub(crate) fn answer_after(&self, call: usize, at: usize) -> usize {
        if let Some(own) = self.answers.get(call) {
            for position in own {
                if *position >= at {
                    return *position;
                }
            }
        }
        usize::MAX
    }
}

/// Returns the positions of answers, closes and holds among the events.
pub(crate) fn positions_in(alloc: Global, events: &[LogEvent]) -> Result<LogPositions, NoMemory> {
    let mut positions = LogPositions {
        calls: Vec::new(alloc),
        answers: Vec::new(alloc),
        numbers: IndexSet::new(alloc),
        files: Vec::new(alloc),
    };
    for (at, event) in events.iter().enumerate() {
        positions.add(alloc, event, at)?;
    }
    Ok(positions)
}
