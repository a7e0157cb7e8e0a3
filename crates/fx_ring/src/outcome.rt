//! The completions and closes of a submission's chains, of one worker or of all.
ghost use Rattle.std.specs.Prelude.{◌≡◌, ◌+◌, ◌*◌, ◌≤◌, [], length, flat_map, sum_by, All, IfOk};
ghost use Rattle.std.specs.Prelude.{IsPermutation, vec_capacity};
ghost use Rattle.std.specs.List.Sorted.{IsNonDecreasingBy};
ghost use Rattle.fx_base.specs.CloseList.{IsInOrderOfMark};
ghost use Rattle.fx_chain.specs.Accepted.{IsAccepted};
ghost use Rattle.fx_chain.specs.Completed.{all_completed};
ghost use Rattle.fx_chain.specs.Operation.{all_asked};
ghost use Rattle.fx_chain.specs.Weights.{all_weights};
ghost use Rattle.fx_ring.specs.Outcomes.{HasRoomFor};
ghost use Rattle.fx_ring.specs.Submission.{reported};

use crate::report::Report;
use fx_base::{CloseList, NoMemory};
use fx_chain::{Completion, Place, Request};
use std::alloc::Global;

/// The completions and closes of some chains: those of one worker, or all of a submission.
#[derive(Drop)]
pub(crate) struct Outcome {
    pub(crate) completions: Vec<Completion>,
    pub(crate) closes: CloseList,
}

// Returns the number of a place among those of a submission. A chain has at most 16 members.
fn rank(place: Place) -> u64
    ensures { result ≡ place.chain * 32 + place.member }
{
    u64::from(place.chain) * 32 + u64::from(place.member)
}

// Returns the number of files that the requests may close together.
#[tactic(auto, using(crate::proofs::Crews::weight_fits))]
fn weight_of_all(requests: &[Request]) -> u32
    requires { IsAccepted (all_asked requests.now) }
    ensures { result ≡ all_weights (all_asked requests.now) }
{
    let mut weight = 0;
    for request in requests {
        weight += request.weight() as u32;
    }
    weight
}

impl Outcome {
    /// Makes an empty outcome with room for a completion of each request and for all files that the
    /// requests can close.
    pub(crate) fn with_room(alloc: Global, requests: &[Request]) -> Result<Outcome, NoMemory>
        requires { IsAccepted (all_asked requests.now) }
        ensures { IfOk result (HasRoomFor (all_asked requests.now)) }
    {
        let completions = Vec::with_capacity(alloc, requests.len())?;
        let closes = CloseList::with_room(alloc, weight_of_all(requests))?;
        Ok(Outcome {
            completions,
            closes,
        })
    }

    /// Makes an empty outcome for each of `workers` workers.
    pub(crate) fn for_each(
        alloc: Global,
        requests: &[Request],
        workers: u32,
    ) -> Result<Vec<Outcome>, NoMemory>
        requires { IsAccepted (all_asked requests.now) }
        ensures count { IfOk result (λ outcomes. length outcomes.items ≡ workers) }
        ensures room { IfOk result (λ outcomes.
            All (HasRoomFor (all_asked requests.now)) outcomes.items) }
    {
        let mut outcomes = Vec::with_capacity(alloc, workers as usize)?;
        for _ in 0..workers {
            outcomes.push_reserved(Outcome::with_room(alloc, requests)?);
        }
        Ok(outcomes)
    }

    /// Joins the outcomes of all workers. A single one is returned as it is. Several are appended
    /// to the lists of `self`, which are empty and have room for them, so no memory is needed.
    pub(crate) fn joined(mut self, mut others: Vec<Outcome>) -> Outcome
        requires nothing_yet { (self.completions.items ≡ []) × (self.closes.files ≡ []) }
        requires completions { sum_by (λ other. length other.completions.items) others.items
            ≤ vec_capacity self.completions }
        requires closes { sum_by (λ other. length other.closes.files) others.items
            ≤ self.closes.room }
        ensures completions { result.completions.items
            ≡ flat_map (λ other. other.completions.items) others.items }
        ensures closes { result.closes.files
            ≡ flat_map (λ other. other.closes.files) others.items }
    {
        if others.len() == 1 {
            return others.remove(0);
        }
        while !others.is_empty() {
            let Outcome {
                mut completions,
                closes,
            } = others.remove(0);
            self.completions.append(&mut completions).unwrap();
            self.closes.append(closes);
        }
        self
    }

    /// Sorts the completions by place and the closes by mark.
    pub(crate) fn sort(&mut self)
        ensures completions { IsPermutation (all_completed self.old.completions.items)
            (all_completed self.new.completions.items) }
        ensures in_order { IsNonDecreasingBy (λ c. c.place.chain * 32 + c.place.member)
            (all_completed self.new.completions.items) }
        ensures closes { IsPermutation self.old.closes.files self.new.closes.files }
        ensures in_order_of_mark { IsInOrderOfMark self.new.closes.files }
    {
        self.completions.sort_unstable_by_key(|c| rank(c.place));
        self.closes.sort();
    }

    /// Returns the report of submission number `submission` with this outcome.
    pub(crate) fn report(self, submission: u32) -> Report
        ensures { reported result ≡ record {
          submission = submission;
          completions = all_completed self.completions.items;
          closes = self.closes;
        } }
    {
        let Outcome {
            completions,
            closes,
        } = self;
        Report {
            submission,
            completions,
            closes,
        }
    }
}
