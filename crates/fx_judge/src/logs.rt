//! A log as C passes it, and how it is read.
ghost use Rattle.std.specs.Prelude.{◌≡◌, ◌≤◌, IfOk, None};
ghost use Rattle.fx_base.specs.Catalogue.{IsCatalogue};
ghost use Rattle.fx_order.specs.Slots.{table_of_slots};
ghost use Rattle.fx_judge.specs.Arrays.{passed_log};
ghost use Rattle.fx_judge.specs.Logs.{reading_in, reading_passed};
ghost use Rattle.fx_judge.specs.Reading.{ReadsOrFails};

use crate::arrays::LogReader;
use crate::codes::MOST_LOG_SLOTS;
use crate::events::{YachtEvent, YachtFile, YachtRequest};
use crate::files::catalogue_of;
use crate::unread::{LogRefusal, Unread};
use fx_base::{Catalogue, NoMemory};
use fx_flight::LogEvent;
use fx_order::Slots;
use std::alloc::Global;

/// A log of calls in flight, as C passes it.
#[derive(Clone, Copy, Drop)]
pub struct CallLog<'a> {
    /// The files of the catalogue.
    pub files: &'a [YachtFile],
    /// The number of slots of the table, which are empty at first.
    pub slots: u32,
    /// The requests of all calls.
    pub requests: &'a [YachtRequest],
    /// The entries of all updates.
    pub entries: &'a [i32],
    /// The names and the bytes of all files, and the bytes that all reads returned.
    pub bytes: &'a [u8],
    /// The events.
    pub events: &'a [YachtEvent],
}

/// A log that was read.
#[derive(Drop)]
pub struct ReadLog {
    /// The catalogue.
    pub catalogue: Catalogue,
    /// The slots of the table before the log.
    pub slots: Slots,
    /// The events of the log, in order.
    pub events: Vec<LogEvent>,
}

// Returns the slots of a table without files.
fn empty_slots(alloc: Global, n: u32) -> Result<Slots, NoMemory>
    ensures { IfOk result (λ slots. table_of_slots slots
        ≡ record { size = n; range = (0, n); at = λ _. None }) }
{
    let at = vec![in alloc; None; n as usize]?;
    Ok(Slots { range: (0, n), at })
}

impl CallLog<'_> {
    /// Reads the log.
    ///
    /// # Errors
    /// `TooManySlots`, or else `BadFile` of the first file that the catalogue refuses, or else
    /// `Malformed` of the first event that can't be read. `NoMemory` if an allocation fails.
    pub fn read(&self, alloc: Global) -> Result<ReadLog, Unread>
        ensures read { ReadsOrFails reading_in result (reading_passed (passed_log self.now)) }
        ensures catalogue { IfOk result (λ read. IsCatalogue read.catalogue) }
        ensures few { IfOk result (λ _. self.now.slots ≤ MOST_LOG_SLOTS) }
        ensures slots { IfOk result (λ read. table_of_slots read.slots
            ≡ record { size = self.now.slots; range = (0, self.now.slots); at = λ _. None }) }
    {
        if self.slots > MOST_LOG_SLOTS {
            return Err(Unread::Refused(LogRefusal::TooManySlots));
        }
        let catalogue = catalogue_of(alloc, self.files, self.bytes)?;
        let reader = LogReader {
            alloc,
            catalogue: &catalogue,
            log: *self,
        };
        let events = reader.events()?;
        let Ok(slots) = empty_slots(alloc, self.slots) else {
            return Err(Unread::NoMemory);
        };
        Ok(ReadLog {
            catalogue,
            slots,
            events,
        })
    }
}
