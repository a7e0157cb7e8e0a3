//! A flight that a search proposes, and the check that the accesses of a call have its answers.
ghost use Rattle.check_flight.specs.Words.{IfOk, IsTrue, all_completed, all_asked, accesses_of_chain};
ghost use Rattle.std.specs.Prelude.{◌≡◌, ◌<◌};
ghost use Rattle.check_flight.specs.Player.{IsCallDone};

use crate::judged::JudgedLog;
use fx_base::NoMemory;
use fx_chain::{Completion, Request, check, cut};
use fx_order::{Access, ChainAccess, OrderedRequests, are_chains_done};
use std::alloc::Global;

/// A kind of call.
#[derive(Clone, Copy)]
pub(crate) enum CallKind<'a> {
    /// A chain of requests.
    Chain(&'a [Request]),
    /// A look of a slot.
    Look(u32),
}

/// All accesses and answers of a call, also those after the end of the log. Each is a hint.
#[derive(Drop)]
pub(crate) struct CallPlan {
    /// The accesses, in order.
    pub(crate) accesses: Vec<Access>,
    /// The answers of the members, in order.
    pub(crate) answers: Vec<Completion>,
}

/// A move of a flight: the next event, or an access.
#[derive(Drop)]
pub(crate) struct Move {
    /// The number of the call that makes the access, or 0 for the next event.
    pub(crate) call: u32,
    /// The access.
    pub(crate) access: Option<Access>,
    /// The answers of a chain by the access.
    pub(crate) answered: Vec<Completion>,
}

/// A flight that a search proposes.
#[derive(Drop)]
pub(crate) struct FlightPlan {
    /// The calls, the first one first.
    pub(crate) calls: Vec<CallPlan>,
    /// The moves.
    pub(crate) moves: Vec<Move>,
}

// Returns the accesses as those of chain 1.
fn order_of(alloc: Global, accesses: &[Access]) -> Result<Vec<ChainAccess>, NoMemory>
    ensures { IfOk result (λ order. accesses_of_chain 1 order.items ≡ accesses.now) }
{
    let mut order = Vec::new(alloc);
    for access in accesses {
        order.push(ChainAccess {
            chain: 1,
            access: *access,
        })?;
    }
    Ok(order)
}

/// Checks whether the requests of a call are done by these accesses, with these answers.
pub(crate) fn are_done(
    log: &JudgedLog<'_>,
    id: u32,
    requests: &[Request],
    accesses: &[Access],
    answers: &[Completion],
) -> Result<bool, NoMemory>
    ensures { IfOk result (λ yes. IsTrue yes → IsCallDone log.now id (all_asked requests.now)
        accesses.now (all_completed answers.now)) }
{
    let alloc = log.setting.alloc;
    if check(requests).is_err() {
        return Ok(false);
    }
    let chains = cut(alloc, requests)?;
    let [chain] = chains.as_slice() else {
        return Ok(false);
    };
    if chain.first != 0 || chain.len as usize != requests.len() {
        return Ok(false);
    }
    let order = order_of(alloc, accesses)?;
    let ordered = OrderedRequests {
        catalogue: log.setting.catalogue,
        size: log.setting.size,
        submission: id,
        requests,
        order: &order,
    };
    are_chains_done(alloc, &ordered, 1, &chains, answers)
}
