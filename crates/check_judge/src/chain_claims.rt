//! The claims of chains, member by member.
ghost use Rattle.std.specs.Prelude.{◌≡◌, ◌<◌, ◌+◌, ◌^◌, All, List, OnOk, length, map};
ghost use Rattle.check_judge.specs.Words.{IsChain, IsWithinLimits, members_of, all_completed, all_asked, asked_of, ChainAccess};
ghost use Rattle.check_judge.specs.Claims.{Appends, AreClaims, Concludes, AreDone, AreMembersDone};

use crate::answered::ClaimSetting;
use crate::judgement::{Reason, Stop};
use crate::request_claims::push_request;
use check_search::Claim;
use fx_base::Errno;
use fx_chain::{Chain, Completion, Place, Request};
use fx_order::members;

// Appends the claims of the members of a chain from this place on, which may be severed before it.
fn push_members(
    claims: &mut Vec<Claim>,
    setting: &ClaimSetting<'_>,
    place: Place,
    requests: &[Request],
    completions: &[Completion],
    cut: bool,
) -> Result<(), Stop>
    requires limits { All (λ r. IsWithinLimits (asked_of r)) requests.now }
    requires members { place.member + length requests.now < 2 ^ 32 }
    ensures { Appends setting.now (AreMembersDone setting.now cut place (all_asked requests.now)
        (all_completed completions.now)) claims.old.items claims.new.items result }
{
    let [request, requests @ ..] = requests else {
        return Ok(());
    };
    let [c, completions @ ..] = completions else {
        return Err(Stop::Refuted(Reason::Member(place)));
    };
    let next = Place {
        member: place.member + 1,
        ..place
    };
    if cut {
        if !c.is_refusal(place, Errno::ECANCELED) {
            return Err(Stop::Refuted(Reason::Member(place)));
        }
        return push_members(claims, setting, next, requests, completions, true);
    }
    push_request(claims, setting, place, request, c)?;
    push_members(
        claims,
        setting,
        next,
        requests,
        completions,
        request.severs(c),
    )
}

/// Appends the claims of chains after those of `lists`, a list for each chain, by the completions
/// of their requests.
pub(crate) fn push_chains(
    lists: &mut Vec<Vec<Claim>>,
    setting: &ClaimSetting<'_>,
    submission: u32,
    requests: &[Request],
    chains: &[Chain],
    completions: &[Completion],
) -> Result<(), Stop>
    requires within { All (IsChain (all_asked requests.now)) chains.now }
    requires numbers { length lists.old.items + length chains.now + 1 < 2 ^ 32 }
    ensures claims { Concludes (List ChainAccess) (Unit {0}) (AreDone setting.now.catalogue.now
        setting.now.size setting.now.range submission (length lists.old.items + 1)
        (map (members_of (all_asked requests.now)) chains.now) (all_completed completions.now))
        (λ _ order. AreClaims setting.now.closes.now lists.old.items order
        → AreClaims setting.now.closes.now lists.new.items order) result }
    ensures many { OnOk result
        (length lists.new.items ≡ length lists.old.items + length chains.now) }
{
    let [chain, chains @ ..] = chains else {
        if !completions.is_empty() {
            return Err(Stop::Refuted(Reason::TooManyCompletions));
        }
        return Ok(());
    };
    let members = members(requests, *chain);
    let place = Place {
        submission,
        chain: lists.len() as u32 + 1,
        member: 1,
    };
    if completions.len() < members.len() {
        return Err(Stop::Refuted(Reason::Member(place)));
    }
    let (own, others) = completions.split_at(members.len());
    let mut claims = Vec::new(setting.alloc);
    push_members(&mut claims, setting, place, members, own, false)?;
    lists.push(claims)?;
    push_chains(lists, setting, submission, requests, chains, others)
}
