//! The shortest beginning of a log without a flight, by the events of one slot alone, whatever the
//! other slots have. Nothing is proved of it: it is a hint.

use crate::act::{place_of, slot_of};
use crate::judged::JudgedLog;
use crate::positions::install_place;
use crate::slot_run::SlotRun;
use fx_base::{Closed, NoMemory};
use fx_chain::{Request, intent_of};
use fx_flight::LogEvent;
use fx_order::Slots;
use std::alloc::Global;

// The largest number of events of every slot that are followed at all slots together.
const MOST_EVENTS: usize = 100_000_000;

// The positions of the events of each slot, and of those of every slot, in order.
#[derive(Drop)]
struct SlotEvents {
    own: Vec<Vec<usize>>,
    every: Vec<usize>,
}

// A slot, the file there before the first event, and the positions of its events.
#[derive(Drop)]
struct SlotLog {
    slot: u32,
    file: Option<Closed>,
    positions: Vec<usize>,
}

// Appends a position, unless it is the last one.
fn push_once(positions: &mut Vec<usize>, at: usize) -> Result<(), NoMemory> {
    if positions.last() != Some(&at) {
        positions.push(at)?;
    }
    Ok(())
}

impl SlotEvents {
    // Notes an event of a slot, or of every slot.
    fn note(&mut self, slot: Option<u32>, at: usize) -> Result<(), NoMemory> {
        let Some(slot) = slot else {
            return push_once(&mut self.every, at);
        };
        match self.own.get_mut(slot as usize) {
            Some(own) => push_once(own, at),
            None => Ok(()),
        }
    }

    // Notes an event of a call for each slot that the call may change or see.
    fn note_call(&mut self, log: &JudgedLog<'_>, id: u32, at: usize) -> Result<(), NoMemory> {
        let chain: &[Request] = match log.call(id) {
            Some(LogEvent::Call { chain, .. }) => chain.as_slice(),
            Some(LogEvent::Look { slot, .. }) => return self.note(Some(*slot), at),
            _ => return Ok(()),
        };
        let (catalogue, size) = (log.setting.catalogue, log.setting.size);
        for (n, request) in chain.iter().enumerate() {
            for access in 0..request.accesses() {
                let place = place_of(id, n);
                if let Some(intent) = intent_of(catalogue, size, place, request, access) {
                    self.note(slot_of(intent), at)?;
                }
            }
        }
        Ok(())
    }

    // Returns the positions of the events of a log.
    fn of(log: &JudgedLog<'_>) -> Result<SlotEvents, NoMemory> {
        let alloc = log.setting.alloc;
        let own = (0..log.setting.size)
            .map(|_| Vec::new(alloc))
            .collect(alloc)?;
        let every = Vec::new(alloc);
        let mut events = SlotEvents { own, every };
        for (at, event) in log.events.iter().enumerate() {
            match event {
                LogEvent::Call { id, .. } | LogEvent::Look { id, .. } => {
                    events.note_call(log, *id, at)?;
                }
                LogEvent::Done(c) => events.note_call(log, c.place.submission, at)?,
                LogEvent::Found { id, .. } => events.note_call(log, *id, at)?,
                LogEvent::Closed(file) => events.note_call(log, install_place(*file).0, at)?,
                LogEvent::Settled => events.note(None, at)?,
                LogEvent::Free { .. } => {}
            }
        }
        Ok(events)
    }

    // Returns the positions of the events of a slot and of those of every slot, in order.
    fn at(&self, alloc: Global, slot: usize) -> Result<Vec<usize>, NoMemory> {
        let own: &[usize] = match self.own.get(slot) {
            Some(own) => own.as_slice(),
            None => &[],
        };
        let mut positions = Vec::from_slice(alloc, own)?;
        positions.extend_from_slice(&self.every)?;
        positions.sort_unstable();
        positions.dedup();
        Ok(positions)
    }
}

impl SlotLog {
    // Returns the position of the first event with which no state of the slot is left, by the
    // answers before the position `count`.
    fn first_wrong(&self, log: &JudgedLog<'_>, count: usize) -> Result<Option<usize>, NoMemory> {
        let mut run = SlotRun::new(log.setting.alloc, self.slot, self.file, count)?;
        for at in &self.positions {
            if *at >= count || run.is_over || !log.moves.spend() {
                break;
            }
            run.go_on(log, *at)?;
            if run.is_empty() && !run.is_over {
                return Ok(Some(*at));
            }
        }
        Ok(None)
    }

    // Returns the number of events of the shortest beginning that is wrong at the slot, or `count`
    // if no shorter one is.
    fn shortest_wrong(&self, log: &JudgedLog<'_>, count: usize) -> Result<usize, NoMemory> {
        let mut high = count.saturating_sub(1);
        let Some(at) = self.first_wrong(log, high)? else {
            return Ok(count);
        };
        let (mut low, mut ahead) = (at, 0usize);
        for _ in 0..128 {
            let left = high.saturating_sub(low);
            if left < 2 {
                break;
            }
            let middle = low.saturating_add(ahead.saturating_add(1).min(left / 2));
            if self.first_wrong(log, middle)?.is_some() {
                high = middle;
            } else {
                low = middle;
                ahead = ahead.saturating_mul(2).saturating_add(1);
            }
        }
        Ok(high)
    }
}

/// Returns the number of events of the shortest beginning that is wrong at some slot, or one more
/// than the log has.
pub(crate) fn wrong_by_slot(log: &JudgedLog<'_>, slots: &Slots) -> Result<usize, NoMemory> {
    let events = SlotEvents::of(log)?;
    let (mut count, mut followed) = (log.events.len().saturating_add(1), 0usize);
    for (slot, own) in events.own.iter().enumerate() {
        if log.moves.are_lacking() {
            break;
        }
        followed = followed.saturating_add(events.every.len());
        if own.is_empty() || followed > MOST_EVENTS {
            continue;
        }
        let positions = events.at(log.setting.alloc, slot)?;
        let file = slots.at.get(slot).copied().flatten();
        let slot = slot.min(u32::MAX as usize) as u32;
        let log_of_slot = SlotLog {
            slot,
            file,
            positions,
        };
        count = log_of_slot.shortest_wrong(log, count)?;
    }
    Ok(count)
}
