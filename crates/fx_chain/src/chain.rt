//! Chains: the parts of a submission whose requests are linked.
ghost use Rattle.std.specs.Prelude.{◌≡◌, ◌+◌, ◌<◌, ◌≤◌, ◌∷◌, length, map, take, drop, All};
ghost use Rattle.std.specs.Prelude.{IfOk, vec_len};
ghost use Rattle.fx_chain.specs.Accepted.{IsAccepted, IsChain, members_of};
ghost use Rattle.fx_chain.specs.Chains.{chains_of};
ghost use Rattle.fx_chain.specs.Operation.{all_asked};
ghost use Rattle.fx_chain.specs.Runs.{runs_of};

use crate::request::Request;
use fx_base::NoMemory;
use fx_table::MAX_CHAINS;
use std::alloc::Global;

/// A chain: requests of a submission that are linked with each other (io_uring_enter(2),
/// "IOSQE_IO_LINK", "IOSQE_IO_HARDLINK").
#[derive(Clone, Copy, Debug, PartialEq, Eq)]
pub struct Chain {
    /// The number of requests before its first member, at most 16,352.
    pub first: u32,
    /// The number of its members, from 1 to 16.
    pub len: u32,
}

impl Chain {
    /// Returns the members of the chain, one of this list of requests ([`cut`]).
    #[tactic(auto, using(crate::proofs::ChainGoesOn::asked_part))]
    pub fn members(self, requests: &[Request]) -> &[Request]
        requires inside { self.first + self.len ≤ length requests.now }
        ensures part { result.now ≡ take self.len (drop self.first requests.now) }
        ensures members { all_asked result.now ≡ members_of (all_asked requests.now) self }
    {
        let first = self.first as usize;
        &requests[first..first + self.len as usize]
    }
}

// Returns the number of members of the first chain: the requests up to the first one that doesn't
// link, or all of them.
fn first_chain_len(requests: &[Request]) -> usize
    requires { 0 < length requests.now }
    ensures some { 0 < result }
    ensures inside { result ≤ length requests.now }
    ensures run { runs_of (all_asked requests.now) ≡ all_asked (take result requests.now)
        ∷ runs_of (all_asked (drop result requests.now)) }
{
    for (i, request) in requests.iter().enumerate() {
        if !request.links() {
            return i + 1;
        }
    }
    requests.len()
}

/// Splits a submission into its chains, in order. Requires that [`crate::check`] accepts the
/// submission.
///
/// # Errors
/// `NoMemory` if an allocation for the list of chains fails.
pub fn cut(alloc: Global, requests: &[Request]) -> Result<Vec<Chain>, NoMemory>
    requires { IsAccepted (all_asked requests.now) }
    ensures chains { IfOk result (λ chains.
        chains.items ≡ chains_of (runs_of (all_asked requests.now))) }
    ensures members { IfOk result (λ chains. map (members_of (all_asked requests.now)) chains.items
        ≡ runs_of (all_asked requests.now)) }
    ensures inside { IfOk result (λ chains.
        All (λ chain. chain.first + chain.len ≤ length requests.now) chains.items) }
    ensures few { IfOk result (λ chains. vec_len chains ≤ MAX_CHAINS) }
    ensures within { IfOk result (λ chains. All (IsChain (all_asked requests.now)) chains.items) }
{
    let mut chains = Vec::new(alloc);
    let mut first = 0;
    while first < requests.len() {
        let len = first_chain_len(&requests[first..]);
        chains.push(Chain {
            first: first as u32,
            len: len as u32,
        })?;
        first += len;
    }
    Ok(chains)
}
