//! The places of the requests that make the accesses of an order.
ghost use Rattle.std.specs.Prelude.{◌≡◌, ◌≤◌, ◌<◌, ◌+◌, ◌++◌, ◌^◌, ℕ, All, IfOk, OnOk, List, length, map, slice_get, Some};
ghost use Rattle.check_judge.specs.Words.{Vec as Items, IsChain, members_of, all_completed, completed_of, all_asked, operation_of, AreChainsDone};
ghost use Rattle.check_judge.specs.Words.{IsChainDone, IsRequestDone, Access, ChainAccess as Made, AccessPlace as Listed};
ghost use Rattle.check_judge.specs.Places.{AreListsOf, IsListFor, AreAccessPlaces, IsChainListed, own_places, places_of_chain};

use fx_base::NoMemory;
use fx_chain::{Chain, Completion, Place, Request};
use fx_order::{AccessPlace, ChainAccess, OrderSetting, members, positions_made};
use std::alloc::Global;

/// The completions of a submission's requests.
#[derive(Drop)]
pub(crate) struct Answered<'a> {
    pub setting: OrderSetting<'a>,
    pub submission: u32,
    pub requests: &'a [Request],
    pub chains: &'a [Chain],
    pub completions: &'a [Completion],
}

// Appends the places of a request's accesses.
fn push_own(
    places: &mut Vec<AccessPlace>,
    setting: &OrderSetting<'_>,
    place: Place,
    request: &Request,
    c: &Completion,
) -> Result<(), NoMemory>
    ensures { OnOk result ((own : List Access)
        → IsRequestDone setting.now.catalogue.now setting.now.size place
        (operation_of request.now.op) own (completed_of c.now)
        → places.new.items ≡ places.old.items ++ own_places place (operation_of request.now.op) own) }
{
    let positions = positions_made(setting, request, c)?;
    for entry in &positions {
        places.push(AccessPlace {
            chain: place.chain,
            member: place.member,
            entry: *entry,
        })?;
    }
    Ok(())
}

// Appends the places of the accesses of a chain's members, from this place on.
fn push_chain(
    places: &mut Vec<AccessPlace>,
    setting: &OrderSetting<'_>,
    place: Place,
    requests: &[Request],
    completions: &[Completion],
) -> Result<(), NoMemory>
    requires { place.member + length requests.now < 2 ^ 32 }
    ensures { OnOk result ((accesses : List Access)
        → IsChainDone setting.now.catalogue.now setting.now.size place (all_asked requests.now)
        accesses (all_completed completions.now)
        → (own : List Listed) × (places.new.items ≡ places.old.items ++ own)
        × IsChainListed setting.now.catalogue.now setting.now.size place (all_asked requests.now)
        accesses own (all_completed completions.now)) }
{
    let [request, requests @ ..] = requests else {
        return Ok(());
    };
    let [c, completions @ ..] = completions else {
        return Ok(());
    };
    push_own(places, setting, place, request, c)?;
    if request.severs(c) {
        return Ok(());
    }
    let next = Place {
        member: place.member + 1,
        ..place
    };
    push_chain(places, setting, next, requests, completions)
}

// Appends the places of the chains from this one on, a list for each chain.
fn push_lists(
    lists: &mut Vec<Vec<AccessPlace>>,
    answered: &Answered<'_>,
    chain: u32,
    chains: &[Chain],
    completions: &[Completion],
) -> Result<(), NoMemory>
    requires within { All (IsChain (all_asked answered.now.requests.now)) chains.now }
    requires numbers { chain + length chains.now < 2 ^ 32 }
    ensures { OnOk result ((order : List Made)
        → AreChainsDone answered.now.setting.catalogue.now answered.now.setting.size
        answered.now.submission chain
        (map (members_of (all_asked answered.now.requests.now)) chains.now) order
        (all_completed completions.now)
        → (own : List (Items Listed)) × (lists.new.items ≡ lists.old.items ++ own)
        × AreListsOf answered.now.setting.catalogue.now answered.now.setting.size
        answered.now.submission chain
        (map (members_of (all_asked answered.now.requests.now)) chains.now) order own
        (all_completed completions.now)) }
{
    let [first, chains @ ..] = chains else {
        return Ok(());
    };
    let members = members(answered.requests, *first);
    if completions.len() < members.len() {
        return Ok(());
    }
    let (own, others) = completions.split_at(members.len());
    let place = Place {
        submission: answered.submission,
        chain,
        member: 1,
    };
    let mut places = Vec::new(answered.setting.alloc);
    push_chain(&mut places, &answered.setting, place, members, own)?;
    lists.push(places)?;
    push_lists(lists, answered, chain + 1, chains, others)
}

// Returns the places of all chains, as an order has their accesses.
fn in_order(
    alloc: Global,
    lists: &[Vec<AccessPlace>],
    order: &[ChainAccess],
) -> Result<Vec<AccessPlace>, NoMemory>
    requires chains { All (λ x. (1 ≤ x.chain) × (x.chain ≤ length lists.now)) order.now }
    requires lists { (k : ℕ) (list : Items Listed) → slice_get lists.now k ≡ Some list
        → IsListFor order.now (k + 1) list.items }
    ensures chains { IfOk result (λ places.
        map (λ p. p.chain) places.items ≡ map (λ x. x.chain) order.now) }
    ensures lists { IfOk result (λ places. (k : ℕ) (list : Items Listed)
        → slice_get lists.now k ≡ Some list
        → places_of_chain (k + 1) places.items ≡ list.items) }
{
    let mut next = vec![in alloc; 0usize; lists.len()]?;
    let mut places = Vec::new(alloc);
    for x in order {
        let chain = x.chain as usize - 1;
        let at = next[chain];
        places.push(lists[chain][at])?;
        next[chain] = at + 1;
    }
    Ok(places)
}

/// Returns the place of the request that makes each access of an order. The order must lead to the
/// completions.
///
/// # Errors
/// `NoMemory` if an allocation fails.
pub(crate) fn places_of(
    answered: &Answered<'_>,
    order: &[ChainAccess],
) -> Result<Vec<AccessPlace>, NoMemory>
    requires within { All (IsChain (all_asked answered.now.requests.now)) answered.now.chains.now }
    requires few { 1 + length answered.now.chains.now < 2 ^ 32 }
    requires chains { All (λ x. (1 ≤ x.chain) × (x.chain ≤ length answered.now.chains.now)) order.now }
    requires done { AreChainsDone answered.now.setting.catalogue.now answered.now.setting.size
        answered.now.submission 1
        (map (members_of (all_asked answered.now.requests.now)) answered.now.chains.now) order.now
        (all_completed answered.now.completions.now) }
    ensures { IfOk result (λ places. AreAccessPlaces answered.now.setting.catalogue.now
        answered.now.setting.size answered.now.submission
        (map (members_of (all_asked answered.now.requests.now)) answered.now.chains.now)
        (all_completed answered.now.completions.now) order.now places.items) }
{
    let mut lists = Vec::new(answered.setting.alloc);
    push_lists(
        &mut lists,
        answered,
        1,
        answered.chains,
        answered.completions,
    )?;
    in_order(answered.setting.alloc, &lists, order)
}
