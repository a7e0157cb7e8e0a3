//! Checking the accesses and completions of a submission, chain by chain.
ghost use Rattle.fx_order.specs.Words.{All, IfOk, IsTrue, length, map, IsChain, IsWithinLimits, members_of, all_completed, all_asked, asked_of};
ghost use Rattle.std.specs.Prelude.{◌≡◌, ◌<◌, ◌≤◌, ◌+◌, ◌^◌, ◌↔◌};
ghost use Rattle.fx_order.specs.Requests.{AreChainsDone};

use crate::access::ChainAccess;
use crate::chain::is_chain_done;
use crate::order::accesses_of_chain;
use crate::request::OrderSetting;
use fx_base::{Catalogue, NoMemory};
use fx_chain::{Chain, Completion, MOST_MEMBERS, Place, Request};
use std::alloc::Global;

/// Returns the members of a chain of the requests ([`fx_chain::cut`]).
pub fn members<'a>(requests: &'a [Request], chain: Chain) -> &'a [Request]
    requires within { IsChain (all_asked requests.now) chain }
    ensures members { all_asked result.now ≡ members_of (all_asked requests.now) chain }
    ensures limits { All (λ r. IsWithinLimits (asked_of r)) result.now }
    ensures few { length result.now ≤ MOST_MEMBERS }
{
    chain.members(requests)
}

/// A submission's requests, and an order of their accesses at a table of `size` slots.
#[derive(Drop)]
pub struct OrderedRequests<'a> {
    /// The files that may be opened.
    pub catalogue: &'a Catalogue,
    /// The number of slots of the table.
    pub size: u32,
    /// The number of the submission, from 1.
    pub submission: u32,
    /// The requests.
    pub requests: &'a [Request],
    /// The accesses, in order.
    pub order: &'a [ChainAccess],
}

/// Checks whether the chains from number `chain` on made their accesses of an order and have these
/// completions, which are in order of place. Requires that the chains are those of the requests
/// ([`fx_chain::cut`]).
///
/// # Errors
/// `NoMemory` if an allocation fails: for the accesses of a chain, or for the bytes of a read.
pub fn are_chains_done(
    alloc: Global,
    ordered: &OrderedRequests<'_>,
    chain: u32,
    chains: &[Chain],
    completions: &[Completion],
) -> Result<bool, NoMemory>
    requires within { All (IsChain (all_asked ordered.now.requests.now)) chains.now }
    requires numbers { chain + length chains.now < 2 ^ 32 }
    ensures { IfOk result (λ yes. IsTrue yes ↔ AreChainsDone ordered.now.catalogue.now
        ordered.now.size ordered.now.submission chain
        (map (members_of (all_asked ordered.now.requests.now)) chains.now) ordered.now.order.now
        (all_completed completions.now)) }
{
    let [first, chains @ ..] = chains else {
        return Ok(completions.is_empty());
    };
    let members = members(ordered.requests, *first);
    if completions.len() < members.len() {
        return Ok(false);
    }
    let (own, others) = completions.split_at(members.len());
    let accesses = accesses_of_chain(alloc, chain, ordered.order)?;
    let setting = OrderSetting {
        alloc,
        catalogue: ordered.catalogue,
        size: ordered.size,
    };
    let place = Place {
        submission: ordered.submission,
        chain,
        member: 1,
    };
    if !is_chain_done(&setting, place, members, &accesses, own)? {
        return Ok(false);
    }
    are_chains_done(alloc, ordered, chain + 1, chains, others)
}
