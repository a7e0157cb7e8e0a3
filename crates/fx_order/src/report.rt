//! Checking whether an order of a submission's requests leads to its report.
ghost use Rattle.fx_order.specs.Words.{ℕ, All, IfOk, IfSome, IsSome, IsTrue, OnErr, false, length, IsAccepted, all_asked, reported};
ghost use Rattle.std.specs.Prelude.{◌≡◌, ◌<◌, ◌≤◌, ◌+◌, ◌^◌, ◌↔◌};
ghost use Rattle.fx_order.specs.Order.{IsOrderOf, ring_left};
ghost use Rattle.fx_order.specs.Slots.{ring_of_slots, ring_with_slots};
ghost use Rattle.fx_order.specs.SubmissionReport.{report_of, ring_before};

use crate::access::ChainAccess;
use crate::order::{are_closed, make_all};
use crate::ring_slots::RingSlots;
use crate::slots::Slots;
use crate::submission::{OrderedRequests, are_chains_done};
use crate::submission_report::SubmissionReport;
use fx_base::{Catalogue, NoMemory};
use fx_chain::{Request, cut};
use fx_ring::Report;
use std::alloc::Global;

// Checks whether each access is of one of `chains` chains.
fn are_within(order: &[ChainAccess], chains: usize) -> bool
    ensures { IsTrue result
        ↔ All (λ x. (1 ≤ x.chain) × (x.chain ≤ chains)) order.now }
{
    order
        .iter()
        .all(|x| 1 <= x.chain && x.chain as usize <= chains)
}

/// Returns the slots that an order of a submission's requests leaves, done one at a time at a table
/// with these slots, or `None` if the order doesn't lead to the submission's report. Requires that
/// no request has a fault ([`fx_chain::check`]), and that the submission's number and the number of
/// slots fit 32 bits.
///
/// # Errors
/// `NoMemory` if an allocation fails: for lists as long as the submission, the order or the table,
/// or for the bytes of a read.
pub fn slots_left(
    alloc: Global,
    submitted: &SubmissionReport<'_>,
    slots: &Slots,
    order: &[ChainAccess],
) -> Result<Option<Slots>, NoMemory>
    requires accepted { IsAccepted (all_asked submitted.now.requests.now) }
    requires small { length slots.now.at.items < 2 ^ 32 }
    requires few { submitted.now.submissions + 1 < 2 ^ 32 }
    ensures order { IfOk result (λ left. IsSome left ↔ ((registrations room : ℕ)
        → IsOrderOf order.now (ring_before submitted.now slots.now registrations)
        (all_asked submitted.now.requests.now) (report_of submitted.now room))) }
    ensures left { IfOk result (λ left. IfSome left (λ new. (registrations : ℕ)
        → ring_of_slots submitted.now.catalogue.now new (submitted.now.submissions + 1)
        registrations ≡ ring_left order.now (ring_before submitted.now slots.now registrations))) }
{
    let chains = cut(alloc, submitted.requests)?;
    if !are_within(order, chains.len()) {
        return Ok(None);
    }
    let ordered = OrderedRequests {
        catalogue: submitted.catalogue,
        size: slots.at.len() as u32,
        submission: submitted.submissions + 1,
        requests: submitted.requests,
        order,
    };
    if !are_chains_done(alloc, &ordered, 1, &chains, submitted.completions)? {
        return Ok(None);
    }
    if !are_closed(alloc, order, submitted.closes)? {
        return Ok(None);
    }
    let mut left = slots.copy(alloc)?;
    if !make_all(&mut left, order) {
        return Ok(None);
    }
    Ok(Some(left))
}

/// Checks whether this order of a submission's requests, done one at a time, leads to the report,
/// at a ring with this catalogue. If it does, the ring becomes the one that the order leaves;
/// otherwise it stays. Requires that no request has a fault ([`fx_chain::check`]), and that the
/// number of slots fits 32 bits.
///
/// # Errors
/// `NoMemory` if an allocation fails: for lists as long as the submission, the order or the table,
/// or for the bytes of a read. The ring stays.
pub fn is_one_order(
    alloc: Global,
    catalogue: &Catalogue,
    ring: &mut RingSlots,
    requests: &[Request],
    report: &Report,
    order: &[ChainAccess],
) -> Result<bool, NoMemory>
    requires accepted { IsAccepted (all_asked requests.now) }
    requires small { length ring.old.slots.at.items < 2 ^ 32 }
    ensures order { IfOk result (λ yes. IsTrue yes ↔ IsOrderOf order.now
        (ring_with_slots catalogue.now ring.old) (all_asked requests.now) (reported report.now)) }
    ensures left { IfOk result (λ yes. IsTrue yes → ring_with_slots catalogue.now ring.new
        ≡ ring_left order.now (ring_with_slots catalogue.now ring.old)) }
    ensures stays { IfOk result (λ yes. yes ≡ false → ring.new ≡ ring.old) }
    ensures err { OnErr result (ring.new ≡ ring.old) }
{
    if report.submission as u64 != ring.submissions as u64 + 1 {
        return Ok(false);
    }
    let submitted = SubmissionReport {
        catalogue,
        submissions: ring.submissions,
        requests,
        completions: &report.completions,
        closes: report.closes.files(),
    };
    let Some(left) = slots_left(alloc, &submitted, &ring.slots, order)? else {
        return Ok(false);
    };
    ring.slots = left;
    ring.submissions = report.submission;
    Ok(true)
}
