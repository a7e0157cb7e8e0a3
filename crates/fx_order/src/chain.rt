//! Checking the accesses and completions of a chain's members, one after another.
ghost use Rattle.fx_order.specs.Words.{All, IfOk, IsTrue, length, IsWithinLimits, all_completed, canceled, all_asked, asked_of};
ghost use Rattle.std.specs.Prelude.{◌≡◌, ◌<◌, ◌+◌, ◌^◌, ◌↔◌};
ghost use Rattle.fx_order.specs.Requests.{IsChainDone};

use crate::access::Access;
use crate::request::{OrderSetting, Performed, accesses_made, is_request_done};
use fx_base::{Errno, NoMemory};
use fx_chain::{Completion, Place, Request};

// Checks whether the members of a chain from this place on were canceled.
fn are_canceled(place: Place, requests: &[Request], completions: &[Completion]) -> bool
    requires { place.member + length requests.now < 2 ^ 32 }
    ensures { IsTrue result
        ↔ (all_completed completions.now ≡ canceled place (all_asked requests.now)) }
{
    let [_, requests @ ..] = requests else {
        return completions.is_empty();
    };
    let [c, completions @ ..] = completions else {
        return false;
    };
    let next = Place {
        member: place.member + 1,
        ..place
    };
    c.is_refusal(place, Errno::ECANCELED) && are_canceled(next, requests, completions)
}

/// Checks whether the members of a chain from this place on made these accesses, one after another,
/// and have these completions: up to and including the first one that severs the chain, and the
/// later ones canceled. Returns `NoMemory` if the allocation for the bytes of a read fails.
pub(crate) fn is_chain_done(
    setting: &OrderSetting<'_>,
    place: Place,
    requests: &[Request],
    accesses: &[Access],
    completions: &[Completion],
) -> Result<bool, NoMemory>
    requires members { place.member + length requests.now < 2 ^ 32 }
    requires limits { All (λ r. IsWithinLimits (asked_of r)) requests.now }
    ensures { IfOk result (λ yes. IsTrue yes ↔ IsChainDone setting.now.catalogue.now
        setting.now.size place (all_asked requests.now) accesses.now
        (all_completed completions.now)) }
{
    let [request, requests @ ..] = requests else {
        return Ok(accesses.is_empty() && completions.is_empty());
    };
    let [c, completions @ ..] = completions else {
        return Ok(false);
    };
    let made = accesses_made(setting, request, c).min(accesses.len());
    let (own, others) = accesses.split_at(made);
    if !is_request_done(setting, request, &Performed { place, own, c })? {
        return Ok(false);
    }
    let next = Place {
        member: place.member + 1,
        ..place
    };
    if request.severs(c) {
        return Ok(others.is_empty() && are_canceled(next, requests, completions));
    }
    is_chain_done(setting, next, requests, others, completions)
}
