//! A submission that is played: where each of its chains is between two of its accesses, and where
//! its next one leads it.
ghost use Rattle.std.specs.Prelude.{◌≡◌, ◌+◌, ◌-◌, ◌<◌, ◌≤◌, ◌^◌, ◌++◌};
ghost use Rattle.check_outcomes.specs.Words.{ℕ, [], All, IfOk, Some, drop, length, map, option_map, slice_index_or, IsCatalogue, Closed as File};
ghost use Rattle.check_outcomes.specs.Words.{IsAccepted, IsChain, IsWithinLimits, members_of, all_completed, next_member, canceled, first_member};
ghost use Rattle.check_outcomes.specs.Words.{all_asked, asked_of, runs_of, finding_of, table_of_slots, MOST_SLOTS};
ghost use Rattle.fx_order.specs.declared.access.Access.TheVariants.{Allocates};
ghost use Rattle.fx_table.specs.declared.limits.TheConstants.{MAX_CHAINS};
ghost use Rattle.check_outcomes.specs.Rests.{rules_of, settled_at};
ghost use Rattle.check_outcomes.specs.Stands.{HasEachNext, Settles, StepsChain, asks_from, gone_on, moved, rest_in};

use crate::answering::next_accesses;
use fx_base::{Catalogue, Errno, NoMemory};
use fx_chain::{Chain, Completion, Finding, MOST_MEMBERS, Place, Request, answer_of, count_of};
use fx_order::{Access, OrderSetting, Slots, members};
use std::alloc::Global;

/// A submission that is played: its number, its requests, the chains into which they were cut,
/// whether its states keep the answers and removed files on the way to them, and the place of the
/// request whose answers are asked for, if there is one.
#[derive(Drop)]
pub(crate) struct PlayedSubmission<'a> {
    pub(crate) alloc: Global,
    pub(crate) catalogue: &'a Catalogue,
    /// The number of slots of the table.
    pub(crate) size: u32,
    pub(crate) number: u32,
    pub(crate) requests: &'a [Request],
    pub(crate) chains: &'a [Chain],
    pub(crate) with_reports: bool,
    pub(crate) asked: Option<Place>,
    pub ghost catalogued: { IsCatalogue catalogue.now },
    pub ghost accepted: { IsAccepted (all_asked requests.now) },
    pub ghost runs: { map (members_of (all_asked requests.now)) chains.now
        ≡ runs_of (all_asked requests.now) },
    pub ghost within: { All (IsChain (all_asked requests.now)) chains.now },
    pub ghost few_chains: { length chains.now ≤ MAX_CHAINS },
    pub ghost few_slots: { size ≤ MOST_SLOTS },
}

impl PlayedSubmission<'_> {
    /// Returns the place of the first member of a chain, by the chain's number from 0.
    pub(crate) fn first(&self, i: usize) -> Place
        requires { i < length self.now.chains.now }
        ensures { result ≡ first_member self.now.number (i + 1) }
    {
        Place {
            submission: self.number,
            chain: i as u32 + 1,
            member: 1,
        }
    }

    /// Checks whether the request that is asked for is one of a chain, by the chain's number from
    /// 0, after its first `done` members.
    pub(crate) fn asks_after(&self, i: usize, done: usize) -> bool
        requires { i < length self.now.chains.now }
        ensures { result
            ≡ asks_from self.now.asked (moved (first_member self.now.number (i + 1)) done) }
    {
        let first = self.first(i);
        match self.asked {
            Some(own) => {
                own.submission == first.submission
                    && own.chain == first.chain
                    && done < own.member as usize
            }
            None => false,
        }
    }

    /// Returns the members of a chain, by the chain's number from 0.
    pub(crate) fn members(&self, i: usize) -> &[Request]
        requires { i < length self.now.chains.now }
        ensures run { all_asked result.now
            ≡ slice_index_or (runs_of (all_asked self.now.requests.now)) i [] }
        ensures limits { All (λ r. IsWithinLimits (asked_of r)) result.now }
        ensures few { length result.now ≤ MOST_MEMBERS }
    {
        members(self.requests, self.chains[i])
    }
}

/// The progress of a chain.
#[derive(Clone, Copy, PartialEq)]
pub struct Progress {
    /// The number of its members that are done: all of them if no access is left.
    pub done: usize,
    /// The number of accesses that the next member has made.
    pub made: usize,
}

/// Returns the place of the member that follows a place by a number of members.
pub(crate) fn moved(place: Place, members: u32) -> Place
    requires { place.member + members < 2 ^ 32 }
    ensures { result ≡ moved place members }
{
    Place {
        member: place.member + members,
        ..place
    }
}

// Appends the completions of the members from this place on, which were canceled.
fn cancel(
    alloc: Global,
    place: Place,
    requests: &[Request],
    recorded: &mut Vec<Completion>,
) -> Result<(), NoMemory>
    requires { place.member + length requests.now < 2 ^ 32 }
    ensures { IfOk result (λ _. all_completed recorded.new.items
        ≡ all_completed recorded.old.items ++ canceled place (all_asked requests.now)) }
{
    let [_, requests @ ..] = requests else {
        return Ok(());
    };
    recorded.push(Completion::refusal(alloc, place, Errno::ECANCELED))?;
    cancel(alloc, moved(place, 1), requests, recorded)
}

/// Answers the requests of a chain from this place on that don't use the table, up to the first one
/// that does, and appends their answers. Returns the number of members that are done then.
///
/// # Errors
/// `NoMemory` if an allocation fails.
#[cycle(settling)]
pub fn settle(
    setting: &OrderSetting<'_>,
    place: Place,
    requests: &[Request],
    recorded: &mut Vec<Completion>,
) -> Result<usize, NoMemory>
    requires limits { All (λ r. IsWithinLimits (asked_of r)) requests.now }
    requires members { place.member + length requests.now < 2 ^ 32 }
    ensures { IfOk result (Settles
        (settled_at (rules_of setting.now.catalogue.now setting.now.size) place
        (all_asked requests.now)) place (all_asked requests.now)
        (all_completed recorded.old.items) (all_completed recorded.new.items)) }
{
    let [request, later @ ..] = requests else {
        return Ok(0);
    };
    if count_of(setting.catalogue, setting.size, request) != 0 {
        return Ok(0);
    }
    Ok(1 + go_on(setting, place, request, later, None, recorded)?)
}

// Returns what the last access found, if there is one.
fn finding_in(last: Option<Access>) -> Option<Finding>
    ensures { result ≡ option_map finding_of last }
{
    match last {
        Some(access) => Some(access.found()),
        None => None,
    }
}

// Answers a request by the last of its accesses, and settles those after it. Returns the number of
// these that are done then.
#[cycle(settling)]
fn go_on(
    setting: &OrderSetting<'_>,
    place: Place,
    request: &Request,
    later: &[Request],
    last: Option<Access>,
    recorded: &mut Vec<Completion>,
) -> Result<usize, NoMemory>
    requires own { IsWithinLimits (asked_of request.now) }
    requires limits { All (λ r. IsWithinLimits (asked_of r)) later.now }
    requires members { place.member + 1 + length later.now < 2 ^ 32 }
    requires slot { (slot : ℕ) (file : File) → last ≡ Some (Allocates slot file) → slot < 2 ^ 31 }
    ensures { IfOk result (Settles
        (gone_on (rules_of setting.now.catalogue.now setting.now.size) place
        (asked_of request.now) (all_asked later.now) last) (next_member place)
        (all_asked later.now)
        (all_completed recorded.old.items) (all_completed recorded.new.items)) }
{
    let (alloc, catalogue) = (setting.alloc, setting.catalogue);
    let found = finding_in(last);
    let c = answer_of(alloc, catalogue, setting.size, place, request, found)?;
    let severs = request.severs(&c);
    recorded.push(c)?;
    let next = moved(place, 1);
    if severs {
        cancel(alloc, next, later, recorded)?;
        return Ok(later.len());
    }
    settle(setting, next, later, recorded)
}

/// Returns the members of a chain after its first `done` members.
pub(crate) fn left(members: &[Request], done: usize) -> &[Request]
    requires { All (λ r. IsWithinLimits (asked_of r)) members.now }
    ensures left { all_asked result.now ≡ drop done (all_asked members.now) }
    ensures limits { All (λ r. IsWithinLimits (asked_of r)) result.now }
    ensures few { length result.now ≡ length members.now - done }
{
    if done >= members.len() {
        return &members[members.len()..];
    }
    &members[done..]
}

/// Returns where an access leads a chain that has its first member at this place, and appends what
/// is answered on the way.
///
/// # Errors
/// `NoMemory` if an allocation fails.
pub fn step(
    setting: &OrderSetting<'_>,
    place: Place,
    members: &[Request],
    progress: Progress,
    access: Access,
    recorded: &mut Vec<Completion>,
) -> Result<Progress, NoMemory>
    requires limits { All (λ r. IsWithinLimits (asked_of r)) members.now }
    requires members { place.member + length members.now < 2 ^ 32 }
    requires slot { (slot : ℕ) (file : File) → access ≡ Allocates slot file → slot < 2 ^ 31 }
    requires made { progress.made < 2 ^ 32 }
    ensures { IfOk result (StepsChain
        (rules_of setting.now.catalogue.now setting.now.size) place
        (all_asked members.now) progress access
        (all_completed recorded.old.items) (all_completed recorded.new.items)) }
{
    let Progress { done, made } = progress;
    let [request, later @ ..] = left(members, done) else {
        return Ok(progress);
    };
    if count_of(setting.catalogue, setting.size, request) != made + 1 {
        return Ok(Progress {
            done,
            made: made + 1,
        });
    }
    let here = moved(place, done as u32);
    let passed = go_on(setting, here, request, later, Some(access), recorded)?;
    Ok(Progress {
        done: done + 1 + passed,
        made: 0,
    })
}

/// Returns what a chain may do next that has its first member at this place, and perhaps more.
///
/// # Errors
/// `NoMemory` if an allocation fails.
pub fn chain_accesses(
    setting: &OrderSetting<'_>,
    slots: &Slots,
    place: Place,
    members: &[Request],
    progress: Progress,
) -> Result<Vec<Access>, NoMemory>
    requires catalogue { IsCatalogue setting.now.catalogue.now }
    requires slots { length slots.now.at.items < 2 ^ 32 }
    requires limits { All (λ r. IsWithinLimits (asked_of r)) members.now }
    requires members { place.member + length members.now < 2 ^ 32 }
    ensures { IfOk result (λ choices. HasEachNext setting.now.catalogue.now
        (table_of_slots slots.now) (rest_in place (all_asked members.now) progress) choices.items) }
{
    let Some(request) = left(members, progress.done).first() else {
        return Ok(Vec::new(setting.alloc));
    };
    let here = moved(place, progress.done as u32);
    let (alloc, catalogue) = (setting.alloc, setting.catalogue);
    next_accesses(alloc, catalogue, slots, here, request, progress.made)
}
