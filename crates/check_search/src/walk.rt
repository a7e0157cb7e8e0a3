//! A depth-first search. Nothing is proved of what it finds.

use crate::node::is_test;
use crate::plans::Plan;
use crate::search::{Found, Rows, SearchRoom};
use crate::state::{SearchState, drawn};
use crate::steps::{ClaimStep, Steps};
use crate::tracks::Tracks;
use fx_base::NoMemory;
use indexmap::IndexSet;
use std::alloc::Global;

// A state on the way from the start to the current state: the chain of the step that led to it, the
// number of the file that was at the slot of that step, the last chain on the way that did more
// than test, and the number of steps that were tried from the state.
#[derive(Clone, Copy)]
struct Stage {
    by: usize,
    before: u16,
    last: usize,
    tried: usize,
}

// `search::BESIDE` counts this size.
const _: () = prove!(size_of::<Stage>() == 32);

// All steps were tried.
const ALL: usize = usize::MAX;

/// The states that a search met, and the slots that blocked it.
#[derive(Drop)]
pub(crate) struct Visited {
    /// The states, if they are kept.
    pub rows: Rows,
    /// The slots that blocked the longest way ([`Walk::note`]).
    pub blocked: Vec<usize>,
}

/// Looks for an end by a plan, along tracks if there are any, or else in all orders. `met` is then
/// what this search met.
pub(crate) fn search_by(
    alloc: Global,
    steps: &Steps<'_>,
    tracks: Option<&Tracks>,
    plan: Plan,
    room: SearchRoom,
    met: &mut Visited,
) -> Result<Found, NoMemory> {
    met.rows = IndexSet::new(alloc);
    met.blocked.clear();
    let mut walk = Walk {
        here: SearchState::new(alloc, steps)?,
        alloc,
        steps,
        tracks,
        sums: IndexSet::new(alloc),
        way: Vec::new(alloc),
        longest: 0,
        met,
        plan,
        room,
    };
    walk.run()
}

// A search: its current state, and the way there.
#[derive(Drop)]
struct Walk<'a> {
    alloc: Global,
    steps: &'a Steps<'a>,
    // The tracks that a step must keep to, or `None` to allow each step.
    tracks: Option<&'a Tracks>,
    // The sums of the states that were met. If two states have the same sum, the second one is
    // skipped, and a result that needs it isn't confirmed.
    sums: IndexSet<u64>,
    here: SearchState<'a>,
    way: Vec<Stage>,
    // The length of the longest way from which no step led on.
    longest: usize,
    met: &'a mut Visited,
    plan: Plan,
    room: SearchRoom,
}

impl Walk<'_> {
    // Continues until the search ends.
    fn run(&mut self) -> Result<Found, NoMemory> {
        if self.room.states == 0 {
            return Ok(Found::Stopped(self.room.doubt));
        }
        self.enter(0, 0, 0)?;
        for _ in 0..usize::MAX {
            if let Some(found) = self.advance()? {
                return Ok(found);
            }
        }
        Ok(Found::Stopped(self.room.doubt))
    }

    // Records the current state, and the stage that led there.
    fn enter(&mut self, by: usize, before: u16, last: usize) -> Result<(), NoMemory> {
        if self.room.keeps {
            let row = Vec::from_slice(self.alloc, &self.here.row)?;
            self.met.rows.insert(row)?;
        }
        self.sums.insert(self.here.sum)?;
        self.way.push(Stage {
            by,
            before,
            last,
            tried: 0,
        })?;
        Ok(())
    }

    // Returns the chain of the next step to be tried, and the number of tried steps after it. If a
    // step that only tests may be made, no other step need be tried. A played order mostly
    // continues with the chain of the last step, and begins the chains in turn.
    fn choice(&self, stage: &Stage) -> Option<(usize, usize)> {
        if stage.tried == ALL {
            return None;
        }
        if stage.tried == 0
            && let Some(chain) = self.test()
        {
            return Some((chain, ALL));
        }
        let (low, high) = self.window();
        if self.plan.seed > 0 {
            return self.choice_drawn(stage, low, high);
        }
        if stage.tried == 0 && stage.last < high && self.step_of(stage.last).is_some() {
            return Some((stage.last, 1));
        }
        let chains = (stage.tried.max(1)..=high).map(|tried| tried.saturating_sub(1));
        chains
            .filter(|chain| *chain != stage.last)
            .find(|chain| self.step_of(*chain).is_some())
            .map(|chain| (chain, chain.saturating_add(2)))
    }

    // Returns the same by a plan with a seed: the first of the chains that may be continued is
    // drawn, and the others follow in a circle.
    fn choice_drawn(&self, stage: &Stage, low: usize, high: usize) -> Option<(usize, usize)> {
        let count = high.saturating_sub(low);
        let first = drawn(self.plan.seed.saturating_add(self.way.len()), 0) >> 33;
        let first = usize::try_from(first).unwrap_or(0);
        for tried in stage.tried.max(1)..=count {
            let place = first.saturating_add(tried).checked_rem(count).unwrap_or(0);
            let chain = low.saturating_add(place);
            if self.step_of(chain).is_some() {
                return Some((chain, tried.saturating_add(1)));
            }
        }
        None
    }

    // Returns the first unfinished chain, and the one after the last that may be continued.
    fn window(&self) -> (usize, usize) {
        let chains = self.steps.packing.chains;
        if self.plan.open >= chains {
            return (0, chains);
        }
        let (mut low, mut open) = (chains, 0usize);
        for chain in 0..chains {
            if self.steps.next_of(&self.here.row, chain).is_some() {
                low = low.min(chain);
                open = open.saturating_add(1);
                if open >= self.plan.open {
                    return (low, chain.saturating_add(1));
                }
            }
        }
        (low, chains)
    }

    // Returns a chain whose next step only tests and may be made. With tracks, it is one that may
    // be continued.
    fn test(&self) -> Option<usize> {
        if self.tracks.is_none() {
            return self.steps.test_of(&self.here.row, self.here.empty);
        }
        let (_, high) = self.window();
        (0..high).find(|chain| self.step_of(*chain).is_some_and(|step| is_test(step.claim)))
    }

    // Returns the next step of a chain, if it may be made and leads to a moment of its track.
    fn step_of(&self, chain: usize) -> Option<ClaimStep<'_>> {
        let step = self.steps.next_of(&self.here.row, chain)?;
        let may = self.steps.allows(&self.here.row, &step, self.here.empty);
        (may && self.keeps_track(&step)).then_some(step)
    }

    // Checks whether a step leads to a moment of the track of its slot.
    fn keeps_track(&self, step: &ClaimStep<'_>) -> bool {
        self.tracks.is_none_or(|tracks| {
            let after = self.here.moment_after(step);
            after.is_none_or(|(cell, moment)| tracks.allows(cell, moment))
        })
    }

    // Records the slots that block the chains that may be continued, if no step leads on and the
    // way is the longest yet: those that block by their tracks alone, or else those whose files
    // block.
    fn note(&mut self) -> Result<(), NoMemory> {
        if self.tracks.is_none() || self.way.len() <= self.longest {
            return Ok(());
        }
        self.longest = self.way.len();
        self.met.blocked.clear();
        let (low, high) = self.window();
        for by_order in [true, false] {
            for chain in low..high {
                self.note_chain(chain, by_order)?;
            }
            if !self.met.blocked.is_empty() {
                break;
            }
        }
        Ok(())
    }

    // Records the slot of a chain's next step, if its track blocks the step (`by_order`), or if the
    // step waits for a file.
    fn note_chain(&mut self, chain: usize, by_order: bool) -> Result<(), NoMemory> {
        if let Some(step) = self.steps.next_of(&self.here.row, chain)
            && let Some(cell) = step.cell
            && self.steps.allows(&self.here.row, &step, self.here.empty) == by_order
            && !(by_order && self.keeps_track(&step))
            && !self.met.blocked.contains(&cell)
        {
            self.met.blocked.push(cell)?;
        }
        Ok(())
    }

    // Makes a step, unless it leads to a state that was met, or to one from which no end is
    // reached. Returns the result if there is no room for the state.
    fn go(&mut self, chain: usize, last: usize) -> Result<Option<Found>, NoMemory> {
        let Some(step) = self.steps.next_of(&self.here.row, chain) else {
            return Ok(None);
        };
        let before = self.here.make(chain, &step);
        if self.here.is_dead(&step) || self.sums.contains(&self.here.sum) {
            self.here.take_back(chain, before);
            return Ok(None);
        }
        if self.sums.len() >= self.room.states {
            return Ok(Some(Found::Stopped(self.room.doubt)));
        }
        let last = if is_test(step.claim) { last } else { chain };
        self.enter(chain, before, last)?;
        Ok(None)
    }

    // Returns the steps of the way.
    fn order(&self) -> Result<Vec<usize>, NoMemory> {
        Ok(
            self.way
                .iter()
                .skip(1)
                .map(|stage| stage.by)
                .collect(self.alloc)?,
        )
    }

    // Tries one step, or goes back by one if none is left. Returns the result once the search ends.
    fn advance(&mut self) -> Result<Option<Found>, NoMemory> {
        let Some(stage) = self.way.last().copied() else {
            return Ok(Some(Found::NoEnd));
        };
        // All claims were made, and each file in the list of closes has left.
        if self.way.len() > self.steps.count && self.steps.is_staying(&self.here.row) {
            return Ok(Some(Found::Order(self.order()?)));
        }
        let Some((chain, tried)) = self.choice(&stage) else {
            self.note()?;
            self.way.pop();
            self.here.take_back(stage.by, stage.before);
            return Ok(None);
        };
        if let Some(stage) = self.way.last_mut() {
            stage.tried = tried;
        }
        self.go(chain, stage.last)
    }
}
