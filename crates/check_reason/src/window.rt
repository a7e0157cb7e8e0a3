//! The part of a log around a wrong event that a search for a reason looks at: calls, the accesses
//! that their answers show, files, and the positions of all their events.

use crate::reading::{Reading, call_number, place_of};
use crate::removals::member_of;
use crate::shown::{ShownAccess, slot_of};
use check_certificate::Evidence;
use fx_base::{Closed as File, NoMemory};
use fx_chain::{Intent, intent_of};
use fx_flight::LogEvent;

/// A file, and what the log says of it.
#[derive(Clone, Copy, Debug)]
pub(crate) struct WindowFile {
    /// The file.
    pub(crate) file: File,
    /// Its slot, if the log says it.
    pub(crate) slot: Option<u32>,
    /// The position of the call that installs it.
    pub(crate) call: usize,
    /// The access that installed it, if its answer shows it.
    pub(crate) install: Option<ShownAccess>,
    /// The position of its close.
    pub(crate) close: Option<usize>,
}

/// The part of a log.
#[derive(Drop)]
pub(crate) struct Window<'a> {
    /// The log.
    pub(crate) log: &'a Reading<'a>,
    /// The first position of the window.
    pub(crate) from: usize,
    /// The accesses, except those that install files.
    pub(crate) accesses: Vec<ShownAccess>,
    /// The files.
    pub(crate) files: Vec<WindowFile>,
    /// The positions of events in the window, and of others that concern its calls and files, in
    /// order.
    pub(crate) positions: Vec<usize>,
    // The slots of the calls with events in the window.
    slots: Vec<u32>,
}

/// The number of slots of a table above which an open that found no free slot isn't explained.
pub(crate) const MOST_SLOTS: u32 = 64;

// Appends a value unless it is there.
fn note(list: &mut Vec<u32>, value: u32) -> Result<(), NoMemory> {
    if !list.contains(&value) {
        list.push(value)?;
    }
    Ok(())
}

impl<'a> Window<'a> {
    /// Returns the window of some ranges of positions, the last one of which ends with the log.
    pub(crate) fn of(
        log: &'a Reading<'a>,
        ranges: &[(usize, usize)],
    ) -> Result<Window<'a>, NoMemory> {
        let alloc = log.alloc;
        let mut window = Window {
            log,
            from: ranges.iter().map(|range| range.0).min().unwrap_or(0),
            accesses: Vec::new(alloc),
            files: Vec::new(alloc),
            positions: Vec::new(alloc),
            slots: Vec::new(alloc),
        };
        let mut calls = Vec::new(alloc);
        for (from, to) in ranges {
            for at in *from..(*to).min(log.events.len()) {
                if let Some(event) = log.events.get(at) {
                    window.positions.push(at)?;
                    note(&mut calls, call_number(event))?;
                }
            }
        }
        let own = window.positions.len();
        for id in &calls {
            window.take_call(*id)?;
        }
        window.take_closed(own)?;
        window.take_present()?;
        window.positions.sort_unstable();
        window.positions.dedup();
        Ok(window)
    }

    // Adds the accesses of a call, and its files.
    fn take_call(&mut self, id: u32) -> Result<(), NoMemory> {
        let log = self.log;
        let Some(call) = log.call(id) else {
            return Ok(());
        };
        self.positions.push(call.at)?;
        for answer in &call.answers {
            self.positions.push(*answer)?;
            for access in 0..log.accesses_at(*answer) {
                if let Some(shown) = log.shown_at(*answer, access) {
                    self.take_access(shown)?;
                }
            }
        }
        for member in call.answers.len()..log.members(id) {
            self.take_open_member(id, member)?;
        }
        Ok(())
    }

    // Adds the files that a member of a call without an answer may have installed.
    fn take_open_member(&mut self, id: u32, member: usize) -> Result<(), NoMemory> {
        let log = self.log;
        if let Some(place) = member_of(id, member)
            && let Some(request) = log.request(place)
        {
            for access in 0..request.accesses() {
                match intent_of(log.catalogue, log.size, place, request, access) {
                    Some(Intent::Put(slot, file)) => self.take_file(file, Some(slot))?,
                    Some(Intent::Allocate(file)) => self.take_file(file, None)?,
                    _ => {}
                }
            }
        }
        Ok(())
    }

    // Adds an access, and its file.
    fn take_access(&mut self, shown: ShownAccess) -> Result<(), NoMemory> {
        if let Some(slot) = slot_of(shown.shown) {
            note(&mut self.slots, slot)?;
        }
        if matches!(shown.shown, Evidence::Full) && self.log.size <= MOST_SLOTS {
            for slot in 0..self.log.size {
                note(&mut self.slots, slot)?;
            }
        }
        if let Some((slot, Some(file))) = shown.shown.left() {
            self.take_file(file, Some(slot))?;
        }
        if !matches!(shown.shown, Evidence::Installs(_, _)) {
            self.accesses.push(shown)?;
        }
        Ok(())
    }

    // Adds a file, unless it is there. `slot` is one at which it was found.
    fn take_file(&mut self, file: File, slot: Option<u32>) -> Result<(), NoMemory> {
        let log = self.log;
        if self.files.iter().any(|other| other.file == file) {
            return Ok(());
        }
        let Some(call) = place_of(file).and_then(|place| log.call(place.submission)) else {
            return Ok(());
        };
        let install = log.install_of(file);
        let mut slot = slot.or(log.slot_of(file));
        if let Some(shown) = install {
            slot = slot_of(shown.shown);
            self.positions.push(shown.answer)?;
        }
        self.positions.push(call.at)?;
        let close = log.close_of(call.at, file);
        if let Some(close) = close {
            self.positions.push(close)?;
        }
        self.files.push(WindowFile {
            file,
            slot,
            call: call.at,
            install,
            close,
        })?;
        Ok(())
    }

    // Adds the files that are closed at the first `own` positions.
    fn take_closed(&mut self, own: usize) -> Result<(), NoMemory> {
        let log = self.log;
        for i in 0..own {
            let at = self.positions.get(i).copied().unwrap_or(usize::MAX);
            if let Some(LogEvent::Closed(file)) = log.events.get(at) {
                self.take_file(*file, None)?;
            }
        }
        Ok(())
    }

    // Adds the files that may still be at the window's slots when it begins: each one that no
    // answered call is known to have followed there.
    fn take_present(&mut self) -> Result<(), NoMemory> {
        let log = self.log;
        for i in 0..self.slots.len() {
            let Some(slot) = self.slots.get(i).copied() else {
                break;
            };
            let Some(own) = log.installs.get(slot as usize) else {
                continue;
            };
            let mut latest = 0;
            for shown in own.iter().rev() {
                if shown.answer >= self.from {
                    continue;
                }
                if shown.answer < latest {
                    break;
                }
                latest = latest.max(shown.call);
                if let Evidence::Installs(slot, file) = shown.shown {
                    self.take_file(file, Some(slot))?;
                }
            }
        }
        Ok(())
    }
}
