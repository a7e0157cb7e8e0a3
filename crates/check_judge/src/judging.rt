//! The verdict on what was reported of a submission.
ghost use Rattle.std.specs.Prelude.{◌≡◌, ◌+◌, ◌<◌, ◌≤◌, ◌^◌};
ghost use Rattle.check_judge.specs.Words.{IfOk, IsTrue, OnErr, length, false, MOST_SLOTS, IsAccepted, all_asked, IsRing, ring_with_slots};
ghost use Rattle.check_judge.specs.Verdict.{CameBy, IsRecordedOutcome, IsVerdict};

use crate::answered::{ClaimSetting, TableRecorded};
use crate::chain_claims::push_chains;
use crate::judgement::{Stop, Verdict};
use crate::part::{PartVerdict, judge_table};
use crate::recorded::Recorded;
use check_search::{Doubt, Limits};
use fx_base::{Catalogue, NoMemory};
use fx_chain::{Request, cut};
use fx_order::{ChainAccess, RingSlots, SubmissionReport, slots_left};
use std::alloc::Global;

/// A submission's requests, and the report of them that is judged.
#[derive(Drop)]
struct Case<'a> {
    alloc: Global,
    catalogue: &'a Catalogue,
    requests: &'a [Request],
    recorded: &'a Recorded,
    pub ghost accepted: { IsAccepted (all_asked requests.now) },
}

// Makes an order if it leads to the report, and returns whether it does. The ring becomes the one
// after the submission.
fn confirm(case: &Case<'_>, ring: &mut RingSlots, order: &[ChainAccess]) -> Result<bool, NoMemory>
    requires ring { IsRing (ring_with_slots case.now.catalogue.now ring.old) }
    requires few_slots { length ring.old.slots.at.items ≤ MOST_SLOTS }
    requires few { ring.old.submissions + 1 < 2 ^ 32 }
    ensures came { IfOk result (λ yes. IsTrue yes → CameBy
        (ring_with_slots case.now.catalogue.now ring.old) (all_asked case.now.requests.now)
        case.now.recorded.now order.now (ring_with_slots case.now.catalogue.now ring.new)) }
    ensures ring { IsRing (ring_with_slots case.now.catalogue.now ring.new) }
    ensures stays { IfOk result (λ yes. yes ≡ false
        → ring_with_slots case.now.catalogue.now ring.new
        ≡ ring_with_slots case.now.catalogue.now ring.old) }
    ensures no_memory { OnErr result (ring_with_slots case.now.catalogue.now ring.new
        ≡ ring_with_slots case.now.catalogue.now ring.old) }
{
    let submitted = SubmissionReport {
        catalogue: case.catalogue,
        submissions: ring.submissions,
        requests: case.requests,
        completions: &case.recorded.completions,
        closes: &case.recorded.closes,
    };
    let Some(left) = slots_left(case.alloc, &submitted, &ring.slots, order)? else {
        return Ok(false);
    };
    ring.slots = left;
    ring.submissions += 1;
    Ok(true)
}

// Searches for an order of the accesses that the completions imply. An order that it returns is
// still to be confirmed.
fn judge_recorded(
    case: &Case<'_>,
    ring: &RingSlots,
    limits: Limits,
) -> Result<PartVerdict, NoMemory>
    requires ring { IsRing (ring_with_slots case.now.catalogue.now ring.now) }
    requires few_slots { length ring.now.slots.at.items ≤ MOST_SLOTS }
    requires few { ring.now.submissions + 1 < 2 ^ 32 }
    ensures { IfOk result (IsRecordedOutcome (ring_with_slots case.now.catalogue.now ring.now)
        (all_asked case.now.requests.now) case.now.recorded.now) }
{
    let chains = cut(case.alloc, case.requests)?;
    let setting = ClaimSetting {
        alloc: case.alloc,
        catalogue: case.catalogue,
        size: ring.slots.at.len() as u32,
        range: ring.slots.range,
        closes: &case.recorded.closes,
    };
    let mut claims = Vec::new(case.alloc);
    match push_chains(
        &mut claims,
        &setting,
        ring.submissions + 1,
        case.requests,
        &chains,
        &case.recorded.completions,
    ) {
        Ok(()) => (),
        Err(Stop::Refuted(reason)) => return Ok(PartVerdict::Refuted(reason)),
        Err(Stop::Unknown) => return Ok(PartVerdict::Unsettled(Doubt::NotShown)),
        Err(Stop::NoMemory) => return Err(NoMemory),
    };
    let table = TableRecorded {
        slots: &ring.slots,
        closes: &case.recorded.closes,
        chains: &claims,
    };
    judge_table(case.alloc, &table, limits)
}

/// Judges whether `recorded` is the result of some order of the requests, done one at a time, at
/// `ring` with `catalogue`. If the verdict is `Legal`, `ring` becomes the ring after the
/// submission; else it stays as it was. `limits` apply to each part of the submission that has
/// slots of its own. The verdict is `Undecided` if it wasn't shown within them: by `TooManyStates`
/// or `TooMuchMemory` if a search reached a limit, by `NotShown` if the result of a search was not
/// confirmed. The caller has checked that no request has a fault ([`fx_chain::check`]).
///
/// # Errors
/// `NoMemory` if an allocation fails. The ring stays as it was.
pub fn judge_submission(
    alloc: Global,
    catalogue: &Catalogue,
    ring: &mut RingSlots,
    requests: &[Request],
    recorded: &Recorded,
    limits: Limits,
) -> Result<Verdict, NoMemory>
    requires accepted { IsAccepted (all_asked requests.now) }
    requires ring { IsRing (ring_with_slots catalogue.now ring.old) }
    requires few_slots { length ring.old.slots.at.items ≤ MOST_SLOTS }
    requires few { ring.old.submissions + 1 < 2 ^ 32 }
    ensures verdict { IfOk result (λ verdict.
        IsVerdict (ring_with_slots catalogue.now ring.old) (all_asked requests.now) recorded.now verdict
        (ring_with_slots catalogue.now ring.new)) }
    ensures ring { IsRing (ring_with_slots catalogue.now ring.new) }
    ensures no_memory { OnErr result
        (ring_with_slots catalogue.now ring.new ≡ ring_with_slots catalogue.now ring.old) }
{
    let case = Case {
        alloc,
        catalogue,
        requests,
        recorded,
    };
    let outcome = judge_recorded(&case, ring, limits)?;
    match outcome {
        PartVerdict::Order(order) => {
            if confirm(&case, ring, &order)? {
                return Ok(Verdict::Legal(order));
            }
            Ok(Verdict::Undecided(Doubt::NotShown))
        }
        PartVerdict::Refuted(reason) => Ok(Verdict::NotLegal(reason)),
        PartVerdict::Unsettled(doubt) => Ok(Verdict::Undecided(doubt)),
    }
}
