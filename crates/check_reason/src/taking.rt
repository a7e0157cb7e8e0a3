//! Files that leave their slots: which access can have taken each, by the orders of a window.

use crate::graph::{Edge, Pair, in_order};
use crate::problem::{FilePoints, Problem};
use crate::removals::Remover;
use crate::window::Window;
use check_certificate::Step;
use fx_base::NoMemory;

// The number of accesses that may take a file, above which no access is looked for.
const MOST_REMOVERS: usize = 256;

/// A chance that an access takes a file from its slot.
#[derive(Clone, Copy, Debug)]
enum Chance {
    /// It doesn't take the file, by its answer alone.
    Never,
    /// It doesn't take the file, by an order.
    Not(Pair),
    /// It may take the file. Its time is a point, by its number, if it has one.
    Perhaps(Option<usize>),
}

/// The accesses that may take a file, from the first one on.
#[derive(Drop)]
struct Takers {
    /// The orders by which accesses don't take it.
    absent: Vec<Pair>,
    /// The number of those that may.
    count: usize,
    /// The time of the last one of these.
    point: Option<usize>,
}

impl Problem {
    // Returns the last event that comes before a file leaves its slot: its number and its position.
    fn last_before(&self, window: &Window<'_>, f: &FilePoints) -> Option<(usize, usize)> {
        let events = window.positions.iter().copied().enumerate();
        events
            .filter(|(event, _)| self.graph.holds(in_order(*event, f.gone, true)))
            .last()
    }

    // Returns the first event that doesn't come before a file leaves its slot.
    fn first_after(&self, window: &Window<'_>, f: &FilePoints) -> Option<(usize, usize)> {
        let mut events = window.positions.iter().copied().enumerate();
        events.find(|(event, _)| self.graph.holds(in_order(f.gone, *event, false)))
    }

    // Returns the point of the time of an access, if the window has it.
    fn point_of(&self, it: &Remover) -> Option<usize> {
        if let Some(file) = it.file {
            return self.points_of(file).map(|own| own.put);
        }
        if !it.is_first {
            return None;
        }
        let own = self.accesses.iter().find(|own| own.shown.answer == it.answer
            && own.shown.access == it.access);
        own.map(|own| own.point)
    }

    // Returns what is known of an access, if the file isn't gone yet at the event at `since`.
    fn chance(&self, window: &Window<'_>, f: &FilePoints, since: usize, it: &Remover) -> Chance {
        let is_early = it.answer <= since && (it.is_first || it.file.is_some());
        if it.has_failed || is_early {
            return Chance::Never;
        }
        if let Ok(event) = window.positions.binary_search(&it.call) {
            let later = in_order(f.gone, event, true);
            if self.graph.holds(later) {
                return Chance::Not(later);
            }
        }
        let point = self.point_of(it);
        let known = point.and_then(|own| {
            let orders = [in_order(f.gone, own, true), in_order(own, f.gone, true)];
            self.graph.known_of(orders)
        });
        known.map_or(Chance::Perhaps(point), Chance::Not)
    }

    // Returns the accesses of calls before a position that may take a file. Stops after `most`.
    fn takers(
        &self,
        window: &Window<'_>,
        f: &FilePoints,
        range: (usize, usize),
        most: usize,
    ) -> Result<(Takers, usize), NoMemory> {
        let (log, (since, until)) = (window.log, range);
        let mut takers = Takers {
            absent: Vec::new(log.alloc),
            count: 0,
            point: None,
        };
        let Some(own) = log.removers.get(f.slot as usize) else {
            return Ok((takers, 0));
        };
        for it in own {
            if it.call >= until || it.file == Some(f.file) {
                continue;
            }
            match self.chance(window, f, since, it) {
                Chance::Never => {}
                Chance::Not(pair) => takers.absent.push(pair)?,
                Chance::Perhaps(point) => {
                    if takers.count >= most {
                        return Ok((takers, it.call));
                    }
                    takers.count += 1;
                    takers.point = point;
                }
            }
            if takers.absent.len() > MOST_REMOVERS {
                return Ok((takers, it.call));
            }
        }
        Ok((takers, until))
    }

    // Applies the rule of a file that no access takes. Returns whether an order was added.
    fn stay(
        &mut self,
        window: &Window<'_>,
        f: &FilePoints,
        since: (usize, usize),
    ) -> Result<bool, NoMemory> {
        let Some(last) = window.log.events.len().checked_sub(1) else {
            return Ok(false);
        };
        let (takers, stop) = self.takers(window, f, (since.1, last), 0)?;
        let next = window.positions.partition_point(|at| *at <= stop);
        let Some(event) = next.checked_sub(1) else {
            return Ok(false);
        };
        let Some(until) = window.positions.get(event).copied() else {
            return Ok(false);
        };
        let absent = self.graph.lists.len();
        self.graph.lists.push(takers.absent)?;
        let there = in_order(since.0, f.gone, true);
        self.graph.add_new(Edge {
            pair: in_order(event, f.gone, true),
            step: Step::Stays { until, there: 0 },
            premises: (Some(there), None),
            absent,
        })
    }

    // Applies the rule of a file that only one access can have taken. Returns whether an order was
    // added.
    fn take(
        &mut self,
        window: &Window<'_>,
        f: &FilePoints,
        since: (usize, usize),
    ) -> Result<bool, NoMemory> {
        let Some((event, until)) = self.first_after(window, f) else {
            return Ok(false);
        };
        let (takers, stop) = self.takers(window, f, (since.1, until), 1)?;
        let Some(point) = takers.point else {
            return Ok(false);
        };
        let Some(taker) = self.graph.points.get(point).copied() else {
            return Ok(false);
        };
        if stop < until || takers.count != 1 {
            return Ok(false);
        }
        let absent = self.graph.lists.len();
        self.graph.lists.push(takers.absent)?;
        let there = in_order(since.0, f.gone, true);
        let mut edge = Edge {
            pair: in_order(point, f.gone, false),
            step: Step::Takes {
                taker,
                there: 0,
                gone: 0,
            },
            premises: (Some(there), Some(in_order(f.gone, event, false))),
            absent,
        };
        let one = self.graph.add_new(edge)?;
        edge.pair = in_order(f.gone, point, false);
        edge.step = Step::TakenBy {
            taker,
            there: 0,
            gone: 0,
        };
        let other = self.graph.add_new(edge)?;
        Ok(one || other)
    }

    // Applies the rule of a file that was installed. Returns whether an order was added.
    fn land(&mut self, window: &Window<'_>, f: &FilePoints) -> Result<bool, NoMemory> {
        let new = in_order(f.put, f.gone, true);
        if self.graph.holds(new) {
            return Ok(false);
        }
        for event in 0..window.positions.len() {
            let installed = in_order(f.put, event, true);
            if self.graph.holds(installed) {
                let step = Step::Lands {
                    slot: f.slot,
                    installed: 0,
                };
                return self.graph.add_by(new, step, installed, None);
            }
        }
        Ok(false)
    }

    /// Applies the rules of files that leave their slots. Returns whether an order was added.
    pub(crate) fn take_all(&mut self, window: &Window<'_>) -> Result<bool, NoMemory> {
        let mut is_new = false;
        for i in 0..self.files.len() {
            let Some(f) = self.files.get(i).copied() else {
                break;
            };
            if self.graph.loops.is_some() {
                break;
            }
            is_new |= self.land(window, &f)?;
            if let Some(since) = self.last_before(window, &f) {
                is_new |= self.stay(window, &f, since)?;
                is_new |= self.take(window, &f, since)?;
            }
        }
        Ok(is_new)
    }
}
