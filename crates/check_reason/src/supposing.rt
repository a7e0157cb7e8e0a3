//! Orders that are supposed of two accesses of a slot, of which neither is known to come first. One
//! that leads to a contradiction is refuted, and the opposite order is known.

use crate::assembly::{case_of, order_of};
use crate::graph::{Edge, Pair, in_order};
use crate::problem::Problem;
use crate::shown::slot_of;
use crate::window::Window;
use check_certificate::Step;
use fx_base::NoMemory;
use fx_flight::LogEvent;

// The number of orders above which no further ones are supposed.
const MOST_SUPPOSED: usize = 400;

impl Problem {
    // Supposes an order. If that leads to a contradiction, adds the opposite one, and what follows.
    // Returns whether it does.
    fn suppose(&mut self, window: &Window<'_>, pair: Pair) -> Result<bool, NoMemory> {
        let alloc = window.log.alloc;
        let saved = self.graph.save(alloc)?;
        let step = Step::Suppose(order_of(&self.graph, pair));
        let (premises, absent) = ((None, None), usize::MAX);
        self.graph.add(Edge {
            pair,
            step,
            premises,
            absent,
        })?;
        self.saturate(window)?;
        let Some(point) = self.graph.loops else {
            let _ = self.graph.restore(alloc, saved)?;
            return Ok(false);
        };
        let case = case_of(alloc, &mut self.graph, saved, point)?;
        let absent = self.graph.cases.len();
        self.graph.cases.push(case)?;
        self.graph.add(Edge {
            pair: in_order(pair.to, pair.from, !pair.strict),
            step: Step::Otherwise,
            premises,
            absent,
        })?;
        self.saturate(window)?;
        Ok(true)
    }

    // Returns the slot of the last event, if it has one.
    fn last_slot(&self, window: &Window<'_>) -> Option<u32> {
        let last = window.log.events.len().checked_sub(1)?;
        match window.log.events.get(last)? {
            LogEvent::Closed(file) => Some(self.points_of(*file)?.slot),
            _ => slot_of(window.log.shown_at(last, 0)?.shown),
        }
    }

    // Forgets the accesses and files of other slots than one.
    fn keep(&mut self, window: &Window<'_>, slot: u32) -> Result<(), NoMemory> {
        let alloc = window.log.alloc;
        let (mut accesses, mut files) = (Vec::new(alloc), Vec::new(alloc));
        for z in &self.accesses {
            if slot_of(z.shown.shown).unwrap_or(slot) == slot {
                accesses.push(*z)?;
            }
        }
        for f in &self.files {
            if f.slot == slot {
                files.push(*f)?;
            }
        }
        (self.accesses, self.files) = (accesses, files);
        Ok(())
    }

    // Returns the slots and the points of accesses, the latest ones first.
    fn points_of_slots(&self, window: &Window<'_>) -> Result<Vec<(u32, usize)>, NoMemory> {
        let mut points = Vec::new(window.log.alloc);
        for f in &self.files {
            points.push((f.slot, f.put))?;
        }
        for z in &self.accesses {
            if let Some(slot) = slot_of(z.shown.shown) {
                points.push((slot, z.point))?;
            }
        }
        points.reverse();
        Ok(points)
    }

    // Supposes each order of two points of a slot. Returns whether an order was added.
    fn suppose_each(
        &mut self,
        window: &Window<'_>,
        points: &[(u32, usize)],
        tried: &mut usize,
    ) -> Result<bool, NoMemory> {
        let mut is_new = false;
        for x in points {
            for y in points {
                let pair = in_order(x.1, y.1, true);
                let is_known = self.graph.holds(in_order(x.1, y.1, false))
                    || self.graph.holds(in_order(y.1, x.1, false));
                if x.0 != y.0 || x.1 == y.1 || is_known || self.graph.loops.is_some() {
                    continue;
                }
                if *tried >= MOST_SUPPOSED {
                    return Ok(false);
                }
                *tried += 1;
                is_new |= self.suppose(window, pair)?;
            }
        }
        Ok(is_new)
    }

    /// Supposes orders until none is refuted, or a point comes before itself: those of the last
    /// event's slot, if it has one.
    pub(crate) fn suppose_all(&mut self, window: &Window<'_>) -> Result<(), NoMemory> {
        if let Some(slot) = self.last_slot(window) {
            self.keep(window, slot)?;
        }
        let points = self.points_of_slots(window)?;
        let mut tried = 0;
        for _ in 0..usize::MAX {
            if !self.suppose_each(window, points.as_slice(), &mut tried)? {
                break;
            }
        }
        Ok(())
    }
}
