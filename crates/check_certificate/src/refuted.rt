//! The check of a certificate: the order that each step adds, and what the log is to be.
ghost use Rattle.check_certificate.specs.Words.{ℕ, All, IfOk, IfSome, IsTrue, option_map, slice_get, take, list_all, IsCatalogue, ring_of_slots};
ghost use Rattle.check_certificate.specs.Words.{all_happenings, IsFaultless, IsLegalLog};
ghost use Rattle.std.specs.Prelude.{◌≡◌, ◌↔◌};
ghost use Rattle.check_certificate.specs.Forced.{IsForced, is_of_no_call, is_registered};
ghost use Rattle.check_certificate.specs.Right.{IsRightCertificate, order_added};
ghost use Rattle.check_certificate.specs.Said.{given_of};
ghost use Rattle.check_certificate.specs.declared.beginning.LogBeginning.{LogBeginning as In};

use crate::beginning::LogBeginning;
use crate::certificate::{PointOrder, Step};
use crate::contents::contents_of;
use fx_base::{Catalogue, Closed as File, Mark, NoMemory};
use fx_flight::{LogEvent, fault_of_log};
use fx_order::Slots;
use std::alloc::Global;

// Checks whether a mark is that of a registration.
fn is_registered(mark: Mark) -> bool
    ensures { result ≡ is_registered mark }
{
    matches!(mark, Mark::Registered { .. })
}

// Checks whether a slot is empty, or its file has the mark of a registration.
fn is_of_no_call(found: Option<File>) -> bool
    ensures { result ≡ is_of_no_call found }
{
    match found {
        Some(file) => is_registered(file.mark),
        None => true,
    }
}

// Checks whether no file at a slot has the mark of a call.
fn are_of_no_call(files: &[Option<File>]) -> bool
    ensures { result ≡ list_all is_of_no_call files.now }
{
    files.iter().all(|found| is_of_no_call(*found))
}

// Returns the known order with this number.
fn order_at(known: &[PointOrder], number: usize) -> Option<&PointOrder>
    ensures sound { IfSome result (λ order. (b : In) → All (IsForced b) known.now
        → IsForced b order.now) }
    ensures exact { option_map (λ order. order.now) result ≡ slice_get known.now number }
{
    known.get(number)
}

// Checks whether events are a log.
fn is_log(alloc: Global, events: &[LogEvent]) -> Result<bool, NoMemory>
    ensures { IfOk result (λ yes. IsTrue yes ↔ IsFaultless (all_happenings events.now)) }
{
    let fault = fault_of_log(alloc, events)?;
    Ok(fault.is_none())
}

impl LogBeginning<'_> {
    /// Returns the order that a step adds to the known orders by its rule. Returns `None` for a
    /// wrong step.
    pub(crate) fn order_of(&self, step: &Step, known: &[PointOrder]) -> Option<PointOrder>
        requires { All (IsForced self.now) known.now }
        ensures sound { IfSome result (IsForced self.now) }
        ensures exact { result ≡ order_added (given_of self.now) known.now step.now }
    {
        match *step {
            Step::Events { earlier, later } => self.events_in_order(earlier, later),
            Step::Begins {
                call,
                answer,
                access,
            } => self.begins(call, answer, access),
            Step::Ends {
                call,
                answer,
                access,
            } => self.ends(call, answer, access),
            Step::Calls { call, file } => self.calls(call, file),
            Step::Installs {
                call,
                answer,
                access,
            } => self.installs(call, answer, access),
            Step::Places {
                call,
                answer,
                access,
            } => self.places(call, answer, access),
            Step::Follows { call, answer } => self.follows(call, answer),
            Step::Finds { call, answer } => self.finds(call, answer),
            Step::Closes { close, slot } => self.closes(close, slot),
            Step::Settles {
                settled,
                installed,
                placed,
            } => self.settles(
                settled,
                order_at(known, installed)?,
                order_at(known, placed)?,
            ),
            Step::Empties {
                call,
                answer,
                access,
                installed,
            } => self.empties(call, answer, access, order_at(known, installed)?),
            Step::Precedes {
                call,
                answer,
                access,
                there,
            } => self.precedes(call, answer, access, order_at(known, there)?),
            Step::Displaces { installed, placed } => {
                self.displaces(order_at(known, installed)?, order_at(known, placed)?)
            }
            Step::Outlives { there, placed } => {
                self.outlives(order_at(known, there)?, order_at(known, placed)?)
            }
            Step::Then { first, second } => self.joined(
                order_at(known, first)?,
                order_at(known, second)?,
            ),
            Step::Holds(holding) => self.holds(&holding, known),
            Step::Lands { slot, installed } => {
                self.lands(self.landing(order_at(known, installed)?, slot)?, known)
            }
            Step::Misses { slot, installed } => {
                self.misses(self.landing(order_at(known, installed)?, slot)?, known)
            }
            Step::Existed { close } => self.existed(close),
            Step::Stays { until, there } => self.stays(until, order_at(known, there)?, known),
            Step::Takes { taker, there, gone } => {
                let orders = self.taken(
                    taker,
                    order_at(known, there)?,
                    order_at(known, gone)?,
                    known,
                )?;
                Some(orders.0)
            }
            Step::TakenBy { taker, there, gone } => {
                let orders = self.taken(
                    taker,
                    order_at(known, there)?,
                    order_at(known, gone)?,
                    known,
                )?;
                Some(orders.1)
            }
            Step::Differs { call, other, order } => self.differs(
                call,
                other,
                order_at(known, order)?,
            ),
            Step::FindsClosed { close, answer } => self.finds_closed(close, answer),
            Step::ClosesTwice { first, second } => self.closes_twice(first, second),
            Step::ClosesHeld { answer, close } => self.closes_held(answer, close),
            Step::CantAnswer { call, answer } => self.cant_answer(call, answer),
            Step::Fails {
                event,
                answer,
                file,
            } => self.fails(event, answer, file),
            Step::Unknown { installed } => self.unknown(order_at(known, installed)?, known),
            Step::Cut {
                call,
                before,
                answer,
            } => self.cut(call, before, answer),
            Step::Suppose(_) => None,
            Step::Otherwise => None,
        }
    }
}

/// Checks whether a certificate refutes the first `count` events of a log whose table has these
/// slots at first. A certificate with a wrong step, or that ends without a contradiction, refutes
/// nothing.
///
/// # Errors
/// `NoMemory` if an allocation fails.
pub fn is_refuted(
    alloc: Global,
    catalogue: &Catalogue,
    slots: &Slots,
    events: &[LogEvent],
    count: usize,
    certificate: &[Step],
) -> Result<bool, NoMemory>
    requires { IsCatalogue catalogue.now }
    ensures sound { IfOk result (λ yes. IsTrue yes → (submissions registrations : ℕ)
        → IsLegalLog (ring_of_slots catalogue.now slots.now submissions registrations)
        (all_happenings (take count events.now)) → ⊥) }
    ensures exact { IfOk result (λ yes. IsTrue yes
        ↔ IsRightCertificate catalogue.now slots.now events.now count certificate.now) }
{
    let Ok(size) = u32::try_from(slots.at.len()) else {
        return Ok(false);
    };
    if count > events.len() || !are_of_no_call(slots.at.as_slice()) {
        return Ok(false);
    }
    let log = is_log(alloc, &events[..count])?;
    if !log {
        return Ok(false);
    }
    let contents = contents_of(alloc, catalogue)?;
    let beginning = LogBeginning {
        catalogue,
        slots,
        size,
        events: &events[..count],
        contents: &contents,
        supposed: None,
    };
    let yes = beginning.refutes(alloc, certificate)?;
    Ok(yes)
}
