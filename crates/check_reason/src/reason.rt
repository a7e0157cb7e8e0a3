//! The reason why a beginning of a log has no flight: a search proposes a certificate, and the
//! checker of certificates takes it or not.
ghost use Rattle.std.specs.Prelude.{◌≡◌, ◌<◌, ℕ, IfOk, IfSome, length, map, take};
ghost use Rattle.fx_base.specs.Catalogue.{IsCatalogue};
ghost use Rattle.fx_order.specs.Slots.{ring_of_slots};
ghost use Rattle.fx_flight.specs.Events.{all_happenings};
ghost use Rattle.fx_flight.specs.Flight.{IsLegalLog};
ghost use Rattle.check_certificate.specs.Right.{IsRightCertificate};

use crate::assembly::ReasonStep;
use crate::direct::direct;
use crate::problem::propose;
use crate::reading::Reading;
use check_certificate::{Step, is_refuted};
use fx_base::{Catalogue, NoMemory};
use fx_flight::LogEvent;
use fx_order::Slots;
use std::alloc::Global;

/// The reason why a beginning of a log has no flight.
#[derive(Debug, Drop)]
pub struct LogReason {
    /// The number of events of the beginning.
    pub count: usize,
    /// The steps. The last one says that a point comes before itself.
    pub steps: Vec<ReasonStep>,
}

// The numbers of events of the windows that are tried.
const WIDTHS: [usize; 6] = [16, 32, 64, 128, 256, 512];

// The windows of which orders are supposed.
const SUPPOSING: [usize; 5] = [16, 32, 64, 128, 256];

// Proposes a certificate of the beginning: first the contradiction of its last event, then one from
// each window, until a window is the whole log. It is empty if the search finds none.
fn search(log: &Reading<'_>, attempt: usize) -> Result<Vec<ReasonStep>, NoMemory> {
    let Some(last) = attempt.checked_sub(1) else {
        return direct(log);
    };
    let end = log.events.len();
    if let Some(width) = last
        .checked_sub(WIDTHS.len())
        .and_then(|nth| SUPPOSING.get(nth))
    {
        return propose(log, &[(end.saturating_sub(*width), end)], true);
    }
    let is_whole = WIDTHS
        .iter()
        .take(last)
        .any(|width| *width >= log.events.len());
    match WIDTHS.get(last) {
        Some(width) if !is_whole => propose(log, &[(end.saturating_sub(*width), end)], false),
        _ => Ok(Vec::new(log.alloc)),
    }
}

// Returns the steps of a reason without what is beside them.
fn steps_alone(alloc: Global, steps: &[ReasonStep]) -> Result<Vec<Step>, NoMemory>
    ensures { IfOk result (λ certificate. certificate.items ≡ map (λ it. it.step) steps.now) }
{
    let mut certificate = Vec::new(alloc);
    for it in steps {
        certificate.push(it.step)?;
    }
    Ok(certificate)
}

/// Looks for the reason why the first `count` events of a log have no flight, from a table with
/// these slots on. Returns `None` if it finds none.
///
/// # Errors
/// `NoMemory` if an allocation fails.
pub fn explain(
    alloc: Global,
    catalogue: &Catalogue,
    slots: &Slots,
    events: &[LogEvent],
    count: usize,
) -> Result<Option<LogReason>, NoMemory>
    requires { IsCatalogue catalogue.now }
    ensures count { IfOk result (λ reason. IfSome reason (λ reason. reason.count ≡ count)) }
    ensures steps { IfOk result (λ reason. IfSome reason (λ reason.
        0 < length reason.steps.items)) }
    ensures right { IfOk result (λ reason. IfSome reason (λ reason.
        IsRightCertificate catalogue.now slots.now events.now count
        (map (λ it. it.step) reason.steps.items))) }
    ensures refuted { IfOk result (λ reason. IfSome reason (λ reason.
        (submissions registrations : ℕ)
        → IsLegalLog (ring_of_slots catalogue.now slots.now submissions registrations)
        (all_happenings (take count events.now)) → ⊥)) }
{
    let Ok(size) = u32::try_from(slots.at.len()) else {
        return Ok(None);
    };
    if count > events.len() {
        return Ok(None);
    }
    let log = Reading::of(alloc, catalogue, size, &events[..count])?;
    for attempt in 0..WIDTHS.len() + SUPPOSING.len() + 1 {
        let steps = search(&log, attempt)?;
        let certificate = steps_alone(alloc, steps.as_slice())?;
        if !steps.is_empty() && is_refuted(alloc, catalogue, slots, events, count, &certificate)? {
            return Ok(Some(LogReason { count, steps }));
        }
    }
    Ok(None)
}
