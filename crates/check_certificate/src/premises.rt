//! The rules of certificates that have known orders as premises, and those that contradict.
ghost use Rattle.check_certificate.specs.Words.{IfSome, true, Event, Gone};
ghost use Rattle.std.specs.Prelude.{◌≡◌};
ghost use Rattle.check_certificate.specs.Forced.{IsForced, IsForcedBy, IsForcedByBoth};
ghost use Rattle.check_certificate.specs.declared.certificate.Point.TheVariants.{Put, Access};
ghost use Rattle.check_certificate.specs.Rules as rule;
ghost use Rattle.check_certificate.specs.Said as said;

use crate::beginning::LogBeginning;
use crate::certificate::{Point, PointOrder};
use crate::events::{call_of, was_closed, was_freed};
use crate::evidence::Evidence;
use crate::rules::{not_after, ordered};
use fx_base::Closed as File;

// Returns the files and the slot of the order of the access that installs a file and the removal of
// a file, which may be another one.
fn stay_of(order: &PointOrder) -> Option<(File, File, u32)>
    ensures sound { IfSome result (λ stay. order.now
        ≡ record { from = Put stay.0; to = Gone stay.1 stay.2; strict = true }) }
    ensures exact { result ≡ rule.stay_of order.now }
{
    let Point::Put(file) = order.from else {
        return None;
    };
    let Point::Gone(other, slot) = order.to else {
        return None;
    };
    order.strict.then_some((file, other, slot))
}

// Returns the file of an order that begins at the access that installs it.
fn put_of(order: &PointOrder) -> Option<File>
    ensures sound { IfSome result (λ file. order.now.from ≡ Put file) }
    ensures exact { result ≡ rule.put_of order.now.from }
{
    match order.from {
        Point::Put(file) => Some(file),
        _ => None,
    }
}

// Returns the file and the slot of a strict order of an access and the file's removal.
fn gone_after(order: &PointOrder, answer: usize, access: usize) -> Option<(File, u32)>
    ensures sound { IfSome result (λ gone. order.now
        ≡ record { from = Access answer access; to = Gone gone.0 gone.1; strict = true }) }
    ensures exact { result ≡ rule.gone_after order.now answer access }
{
    if !order.strict || order.from != Point::Access(answer, access) {
        return None;
    }
    match order.to {
        Point::Gone(file, slot) => Some((file, slot)),
        _ => None,
    }
}

// Returns the answer and the number of an access.
fn access_of(point: Point) -> Option<(usize, usize)>
    ensures sound { IfSome result (λ access. point ≡ Access access.0 access.1) }
    ensures exact { result ≡ rule.access_of point }
{
    match point {
        Point::Access(answer, access) => Some((answer, access)),
        _ => None,
    }
}

// Returns the file of a strict order of the access that installs it and an event.
fn put_before(order: &PointOrder, at: usize) -> Option<File>
    ensures sound { IfSome result (λ file. order.now
        ≡ record { from = Put file; to = Event at; strict = true }) }
    ensures exact { result ≡ rule.put_before order.now at }
{
    if !order.strict || order.to != Point::Event(at) {
        return None;
    }
    match order.from {
        Point::Put(file) => Some(file),
        _ => None,
    }
}

impl LogBeginning<'_> {
    /// Returns the order of an access that leaves a slot without a file, and the file's removal:
    /// `installed` is the order of the file's installation and the access.
    #[tactic(auto, unfolding(crate::specs::Rules::empties))]
    pub(crate) fn empties(
        &self,
        call: usize,
        answer: usize,
        access: usize,
        installed: &PointOrder,
    ) -> Option<PointOrder>
        ensures sound { IfSome result (IsForcedBy self.now installed.now) }
        ensures exact { result
            ≡ rule.empties (said.given_of self.now) call answer access installed.now }
    {
        let evidence = self.made(call, answer, access)?;
        let (slot, left) = evidence.left()?;
        let file = put_of(installed)?;
        if installed.to != Point::Access(answer, access) || left == Some(file) {
            return None;
        }
        Some(not_after(Point::Gone(file, slot), Point::Access(answer, access)))
    }

    /// Returns the order of an access that leaves a slot without a file, and the file's
    /// installation: `there` is the order of the access and the file's removal.
    pub(crate) fn precedes(
        &self,
        call: usize,
        answer: usize,
        access: usize,
        there: &PointOrder,
    ) -> Option<PointOrder>
        ensures sound { IfSome result (IsForcedBy self.now there.now) }
        ensures exact { result
            ≡ rule.precedes (said.given_of self.now) call answer access there.now }
    {
        let evidence = self.made(call, answer, access)?;
        let (slot, left) = evidence.left()?;
        let (file, own) = gone_after(there, answer, access)?;
        if own != slot || left == Some(file) {
            return None;
        }
        Some(ordered(Point::Access(answer, access), Point::Put(file)))
    }

    /// Returns the order of a file's removal and the installation of another file at its slot:
    /// `installed` is the order of both installations, and `placed` says that the other file was at
    /// the slot.
    pub(crate) fn displaces(
        &self,
        installed: &PointOrder,
        placed: &PointOrder,
    ) -> Option<PointOrder>
        ensures sound { IfSome result (IsForcedByBoth self.now installed.now placed.now) }
        ensures exact { result ≡ rule.displaces installed.now placed.now }
    {
        let file = put_of(installed)?;
        let (other, own, slot) = stay_of(placed)?;
        let _call = call_of(other)?;
        if own != other || other == file || installed.to != Point::Put(other) {
            return None;
        }
        Some(not_after(Point::Gone(file, slot), Point::Put(other)))
    }

    /// Returns the order of the installations of two files at a slot: by `there` one is at the slot
    /// after the other one was installed, and `placed` says that the other one was at the slot.
    pub(crate) fn outlives(&self, there: &PointOrder, placed: &PointOrder) -> Option<PointOrder>
        ensures sound { IfSome result (IsForcedByBoth self.now there.now placed.now) }
        ensures exact { result ≡ rule.outlives there.now placed.now }
    {
        let (other, file, slot) = stay_of(there)?;
        let (same, own, at) = stay_of(placed)?;
        let _call = call_of(other)?;
        if same != other || own != other {
            return None;
        }
        if at != slot || other == file {
            return None;
        }
        Some(ordered(Point::Put(other), Point::Put(file)))
    }

    /// Returns the order of a moment at which all was settled and the removal of a file that was
    /// installed before and not closed.
    pub(crate) fn settles(
        &self,
        settled: usize,
        installed: &PointOrder,
        placed: &PointOrder,
    ) -> Option<PointOrder>
        ensures sound { IfSome result (IsForcedByBoth self.now installed.now placed.now) }
        ensures exact { result
            ≡ rule.settles (said.given_of self.now) settled installed.now placed.now }
    {
        let (file, own, slot) = stay_of(placed)?;
        let _call = call_of(file)?;
        let early = put_before(installed, settled)?;
        if own != file || early != file {
            return None;
        }
        if settled >= self.events.len() || !self.is_settled_at(settled) {
            return None;
        }
        if was_closed(&self.events[..settled], file) {
            return None;
        }
        Some(ordered(Point::Event(settled), Point::Gone(file, slot)))
    }

    /// Returns the strict order of two accesses of different calls: `order` says that the first one
    /// doesn't come after the second one.
    pub(crate) fn differs(
        &self,
        call: usize,
        other: usize,
        order: &PointOrder,
    ) -> Option<PointOrder>
        ensures sound { IfSome result (IsForcedBy self.now order.now) }
        ensures exact { result ≡ rule.differs (said.given_of self.now) call other order.now }
    {
        let id = self.call_at(call)?;
        let jd = self.call_at(other)?;
        let (answer, access) = access_of(order.from)?;
        let (later, number) = access_of(order.to)?;
        let _one = self.made(call, answer, access)?;
        let _two = self.made(other, later, number)?;
        if id == jd {
            return None;
        }
        Some(ordered(order.from, order.to))
    }

    /// Returns a contradiction if a look's answer is a file that was closed before.
    pub(crate) fn finds_closed(&self, close: usize, answer: usize) -> Option<PointOrder>
        ensures sound { IfSome result (IsForced self.now) }
        ensures exact { result ≡ rule.finds_closed (said.given_of self.now) close answer }
    {
        let file = self.close_at(close)?;
        let (_look, found) = self.found_at(answer)?;
        if close >= answer || found != file {
            return None;
        }
        Some(ordered(Point::Event(answer), Point::Event(answer)))
    }

    /// Returns a contradiction if a file was closed twice.
    pub(crate) fn closes_twice(&self, first: usize, second: usize) -> Option<PointOrder>
        ensures sound { IfSome result (IsForced self.now) }
        ensures exact { result ≡ rule.closes_twice (said.given_of self.now) first second }
    {
        let file = self.close_at(first)?;
        let again = self.close_at(second)?;
        if first >= second || again != file {
            return None;
        }
        Some(ordered(Point::Event(second), Point::Event(second)))
    }

    /// Returns a contradiction if a file was closed while a look held it.
    pub(crate) fn closes_held(&self, answer: usize, close: usize) -> Option<PointOrder>
        ensures sound { IfSome result (IsForced self.now) }
        ensures exact { result ≡ rule.closes_held (said.given_of self.now) answer close }
    {
        let (look, found) = self.found_at(answer)?;
        let file = self.close_at(close)?;
        if answer >= close || found != file || close >= self.events.len() {
            return None;
        }
        if was_freed(&self.events[..close], look) {
            return None;
        }
        Some(ordered(Point::Event(close), Point::Event(close)))
    }

    /// Returns a contradiction if a request can't have its answer.
    pub(crate) fn cant_answer(&self, call: usize, answer: usize) -> Option<PointOrder>
        ensures sound { IfSome result (IsForced self.now) }
        ensures exact { result ≡ rule.cant_answer (said.given_of self.now) call answer }
    {
        let evidence = self.made(call, answer, 0)?;
        match evidence {
            Evidence::Never => Some(ordered(Point::Event(answer), Point::Event(answer))),
            Evidence::Installs(slot, _file) if slot as usize >= self.slots.at.len() => Some(ordered(
                Point::Event(answer),
                Point::Event(answer),
            )),
            _ => None,
        }
    }
}
