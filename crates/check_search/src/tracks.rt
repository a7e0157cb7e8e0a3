//! Orders of the claims of each slot by itself in which chains reach the slot nearly in turn, as
//! workers begin them. A moment of a slot is the set of its claims that were made, and the file
//! that is there. A track is the set of moments from which the other claims can be made. Nothing is
//! promised of it.

use crate::cell::may_find;
use crate::steps::{ClaimStep, MOST_CLAIMS, Steps};
use fx_base::NoMemory;
use indexmap::IndexSet;
use std::alloc::Global;

// A moment: the bits of the claims that were made, and above them the number of the file.
const MADE: u64 = (1 << MOST_CLAIMS) - 1;

// The largest number of moments of a slot. Measured with `plans::NEAR`, and not by itself.
const MOST_MOMENTS: usize = 4_096;

// The number of times that a track is widened until its slot has an order by itself, and the
// factor; and the factor at a slot that blocked a search. Measured with `plans::NEAR`, and not by
// themselves.
const WIDENINGS: usize = 16;

const WIDER: usize = 4;

const MUCH_WIDER: usize = 8;

/// The moments of a slot from which its claims can all be made.
#[derive(Drop)]
struct Track {
    // The number of chains by which one may reach the slot too early: a claim may be made before
    // those of fewer than `near` earlier chains.
    near: usize,
    // The moments, or `None` if the slot has too many: then each moment is allowed.
    moments: Option<IndexSet<u64>>,
}

/// The tracks of all slots.
#[derive(Drop)]
pub struct Tracks {
    tracks: Vec<Track>,
}

/// The claims of a slot, in order of chain.
#[derive(Drop)]
struct Slot<'a> {
    alloc: Global,
    steps: &'a Steps<'a>,
    cell: usize,
    claims: Vec<(usize, ClaimStep<'a>)>,
    near: usize,
}

/// Returns the moment of a slot at which the claims of the bits `made` were made and a file is
/// there, by its number.
pub fn moment_of(made: u64, file: u16) -> u64 {
    made | (u64::from(file) << MOST_CLAIMS)
}

// Returns the number of the file at a moment.
fn file_in(moment: u64) -> u16 {
    (moment >> MOST_CLAIMS) as u16
}

impl Slot<'_> {
    // Returns the first chain with a claim that is still to be made.
    fn first(&self, made: u64) -> usize {
        let first = self.claims.iter().find(|(_, step)| made & step.bit == 0);
        first.map_or(usize::MAX, |(chain, _)| *chain)
    }

    // Checks whether the claim of a chain before the one at a place was made.
    fn is_first(&self, made: u64, chain: usize, at: usize) -> bool {
        match self.claims.get(at.wrapping_sub(1)) {
            Some((other, before)) => *other != chain || made & before.bit != 0,
            None => true,
        }
    }

    // Returns the moment after the claim at a place, if that claim may be made.
    fn after(&self, moment: u64, at: usize) -> Option<u64> {
        let (chain, step) = self.claims.get(at).copied()?;
        let (made, file) = (moment & MADE, file_in(moment));
        if made & step.bit != 0 || !self.is_first(made, chain, at) {
            return None;
        }
        let found = self.steps.packing.file_at(self.cell, file as usize);
        if !may_find(step.claim, found) {
            return None;
        }
        Some(moment_of(made ^ step.bit, step.left.unwrap_or(file)))
    }

    // Returns the number of claims, from the first one on, whose chains aren't too early at a
    // moment.
    fn near_count(&self, moment: u64) -> usize {
        let far = self.first(moment & MADE).saturating_add(self.near);
        self.claims.partition_point(|claim| claim.0 < far)
    }

    // Adds the moments that are reached from those in the set. Returns false if they are too many.
    fn reach(&self, reached: &mut IndexSet<u64>) -> Result<bool, NoMemory> {
        for number in 0..MOST_MOMENTS {
            let Some(moment) = reached.get_index(number).copied() else {
                return Ok(true);
            };
            for at in 0..self.near_count(moment) {
                if let Some(other) = self.after(moment, at) {
                    reached.insert(other)?;
                }
            }
        }
        Ok(false)
    }

    // Checks whether a moment is an end, or a claim leads from it to one of some moments.
    fn leads_on(&self, moment: u64, others: &IndexSet<u64>) -> bool {
        if self.first(moment & MADE) == usize::MAX {
            let file = file_in(moment) as usize;
            let found = self.steps.packing.file_at(self.cell, file);
            return !matches!(found, Some(file) if file.leaves);
        }
        (0..self.near_count(moment)).any(|at| {
            let other = self.after(moment, at);
            other.is_some_and(|other| others.contains(&other))
        })
    }

    // Returns the moments from which all other claims can be made, or `None` if too many are
    // reached.
    fn moments(&self, first: u64) -> Result<Option<IndexSet<u64>>, NoMemory> {
        let mut reached = IndexSet::new(self.alloc);
        reached.insert(first)?;
        if !self.reach(&mut reached)? {
            return Ok(None);
        }
        Ok(Some(self.leading_on(reached.as_slice())?))
    }

    // Returns those moments from which all other claims can be made, of all that are reached.
    fn leading_on(&self, reached: &[u64]) -> Result<IndexSet<u64>, NoMemory> {
        let mut moments = IndexSet::new(self.alloc);
        for moment in reached.iter().rev() {
            if self.leads_on(*moment, &moments) {
                moments.insert(*moment)?;
            }
        }
        Ok(moments)
    }

    // Returns the track from the first moment on, widened until it leads to an end.
    fn track(&mut self, first: u64) -> Result<Track, NoMemory> {
        let has_bits = self.claims.len() <= MOST_CLAIMS;
        for _ in 0..if has_bits { WIDENINGS } else { 0 } {
            let Some(moments) = self.moments(first)? else {
                break;
            };
            if moments.contains(&first) {
                return Ok(Track {
                    near: self.near,
                    moments: Some(moments),
                });
            }
            if self.near >= self.steps.packing.chains {
                break;
            }
            self.near = self.near.saturating_mul(WIDER);
        }
        Ok(Track {
            near: usize::MAX,
            moments: None,
        })
    }
}

// Returns the track of a slot, with at least this `near`. If the slot has too many claims, each
// order is allowed.
fn track_of(alloc: Global, steps: &Steps<'_>, cell: usize, near: usize) -> Result<Track, NoMemory> {
    let has_file = matches!(steps.packing.cells.get(cell), Some(cell) if cell.file.is_some());
    let mut slot = Slot {
        claims: steps.claims_at(alloc, cell)?,
        alloc,
        steps,
        cell,
        near,
    };
    slot.track(moment_of(0, u16::from(has_file)))
}

impl Tracks {
    /// Returns the tracks of all slots, each with at least this `near`.
    pub fn new(alloc: Global, steps: &Steps<'_>, near: usize) -> Result<Tracks, NoMemory> {
        let mut tracks = Vec::new(alloc);
        for cell in 0..steps.packing.cells.len() {
            tracks.push(track_of(alloc, steps, cell, near)?)?;
        }
        Ok(Tracks { tracks })
    }

    /// Checks whether no slot has a track.
    pub fn are_none(&self) -> bool {
        self.tracks.iter().all(|track| track.moments.is_none())
    }

    /// Checks whether all claims of a slot can be made from a moment on.
    pub fn allows(&self, cell: usize, moment: u64) -> bool {
        let moments = self
            .tracks
            .get(cell)
            .and_then(|track| track.moments.as_ref());
        moments.is_none_or(|moments| moments.contains(&moment))
    }

    /// Widens the tracks of some slots. Returns true unless each was as wide as it can be.
    pub fn widen_all(
        &mut self,
        alloc: Global,
        steps: &Steps<'_>,
        cells: &[usize],
    ) -> Result<bool, NoMemory> {
        let mut is_wider = false;
        for cell in cells {
            let Some(track) = self.tracks.get_mut(*cell) else {
                continue;
            };
            if track.near < steps.packing.chains {
                let near = track.near.saturating_mul(MUCH_WIDER);
                *track = track_of(alloc, steps, *cell, near)?;
                is_wider = true;
            }
        }
        Ok(is_wider)
    }
}
