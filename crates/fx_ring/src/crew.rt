//! The crew of a submission: its workers are made of passes before they play, and taken apart
//! afterwards.
ghost use Rattle.std.specs.Prelude.{◌≡◌, ◌≤◌, [], length, map, IfOk, vec_capacity};
ghost use Rattle.fx_chain.specs.Accepted.{IsAccepted};
ghost use Rattle.fx_chain.specs.Operation.{all_asked};
ghost use Rattle.fx_ring.specs.Outcomes.{HasRoomForCrew};

use crate::outcome::Outcome;
use crate::worker::{Spacing, Worker};
use fx_base::NoMemory;
use fx_chain::Request;
use std::alloc::Global;

/// The lists that a submission fills, with room for all that it can produce. It must be consumed if
/// a pass must be.
pub(crate) struct Room<P> {
    pub(crate) crew: Vec<Worker<P>>,
    pub(crate) outcomes: Vec<Outcome>,
    pub(crate) all: Outcome,
}

impl<P> Room<P> {
    /// Makes room for the requests and for `workers` workers.
    pub(crate) fn new(
        alloc: Global,
        requests: &[Request],
        workers: u32,
    ) -> Result<Room<P>, NoMemory>
        requires { IsAccepted (all_asked requests.now) }
        ensures { IfOk result (λ room. HasRoomForCrew (all_asked requests.now) workers room) }
    {
        let outcomes = Outcome::for_each(alloc, requests, workers)?;
        let all = Outcome::with_room(alloc, requests)?;
        let crew = Vec::with_capacity(alloc, workers as usize)?;
        Ok(Room {
            crew,
            outcomes,
            all,
        })
    }
}

/// Makes a worker of each pass, with an outcome of its own.
pub(crate) fn gather<P>(passes: &mut Vec<P>, outcomes: &mut Vec<Outcome>, crew: &mut Vec<Worker<P>>)
    requires count { length outcomes.old.items ≡ length passes.old.items }
    requires empty { crew.old.items ≡ [] }
    requires room { length passes.old.items ≤ vec_capacity crew.old }
    ensures none_left { (passes.new.items ≡ []) × (outcomes.new.items ≡ []) }
    ensures passes_room { vec_capacity passes.new ≡ vec_capacity passes.old }
    ensures outcomes_room { vec_capacity outcomes.new ≡ vec_capacity outcomes.old }
    ensures passes { map (λ w. w.pass) crew.new.items ≡ passes.old.items }
    ensures outcomes { map (λ w. w.outcome) crew.new.items ≡ outcomes.old.items }
{
    while !passes.is_empty() {
        crew.push_reserved(Worker {
            pass: passes.remove(0),
            outcome: outcomes.remove(0),
            spacing: Spacing { unused: [0; 8] },
        });
    }
}

/// Takes the workers apart: returns their passes and outcomes to the lists.
pub(crate) fn scatter<P>(
    crew: &mut Vec<Worker<P>>,
    passes: &mut Vec<P>,
    outcomes: &mut Vec<Outcome>,
)
    requires empty { (passes.old.items ≡ []) × (outcomes.old.items ≡ []) }
    requires passes_room { length crew.old.items ≤ vec_capacity passes.old }
    requires outcomes_room { length crew.old.items ≤ vec_capacity outcomes.old }
    ensures none_left { crew.new.items ≡ [] }
    ensures passes { passes.new.items ≡ map (λ w. w.pass) crew.old.items }
    ensures outcomes { outcomes.new.items ≡ map (λ w. w.outcome) crew.old.items }
{
    while !crew.is_empty() {
        let Worker {
            pass,
            outcome,
            spacing: _,
        } = crew.remove(0);
        passes.push_reserved(pass);
        outcomes.push_reserved(outcome);
    }
}
