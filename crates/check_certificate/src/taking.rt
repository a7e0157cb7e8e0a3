//! The rules of a file that leaves its slot: some access takes it, and the others are excluded.
ghost use Rattle.check_certificate.specs.Words.{All, IfSome, true, Event, Gone};
ghost use Rattle.std.specs.Prelude.{◌≡◌};
ghost use Rattle.check_certificate.specs.Forced.{IsForced, IsForcedBy};
ghost use Rattle.check_certificate.specs.Rules as rule;
ghost use Rattle.check_certificate.specs.Said as said;
ghost use Rattle.check_certificate.specs.Walks as walk;

use crate::beginning::LogBeginning;
use crate::certificate::{Point, PointOrder};
use crate::rules::{not_after, ordered};
use crate::walk::{Leaving, WalkAim};

// Returns the position of an event.
fn event_of(point: Point) -> Option<usize>
    ensures sound { IfSome result (λ at. point ≡ Event at) }
    ensures exact { result ≡ rule.event_of point }
{
    match point {
        Point::Event(at) => Some(at),
        _ => None,
    }
}

// Returns the file that leaves its slot after an event, and before the one at `until`.
fn leaving(there: &PointOrder, until: usize, taker: Option<Point>) -> Option<Leaving>
    ensures sound { IfSome result (λ l. (there.now
        ≡ record { from = Event l.since; to = Gone l.file l.slot; strict = true })
        × (l.until ≡ until) × (l.taker ≡ taker)) }
    ensures exact { result ≡ walk.leaving there.now until taker }
{
    let Point::Event(since) = there.from else {
        return None;
    };
    let Point::Gone(file, slot) = there.to else {
        return None;
    };
    there.strict.then_some(Leaving {
        file,
        slot,
        since,
        until,
        taker,
    })
}

impl LogBeginning<'_> {
    /// Returns the order of an event and the removal of a file that no access takes from its slot
    /// before it: `there` says that the file isn't gone at some earlier event.
    #[tactic(auto, unfolding(crate::specs::Walks::stays))]
    pub(crate) fn stays(
        &self,
        until: usize,
        there: &PointOrder,
        known: &[PointOrder],
    ) -> Option<PointOrder>
        requires { All (IsForced self.now) known.now }
        ensures sound { IfSome result (IsForcedBy self.now there.now) }
        ensures exact { result
            ≡ walk.stays (said.given_of self.now) known.now until there.now }
    {
        let l = leaving(there, until, None)?;
        if l.until >= self.events.len() || !self.is_walked(&WalkAim::Leaves(l), known) {
            return None;
        }
        Some(ordered(Point::Event(l.until), Point::Gone(l.file, l.slot)))
    }

    /// Returns the orders of the access that takes a file and the file's removal, which are at one
    /// time, either way round: no other access may take it, and by `gone` it is gone at some event.
    #[tactic(auto, unfolding(crate::specs::Walks::taken))]
    pub(crate) fn taken(
        &self,
        taker: Point,
        there: &PointOrder,
        gone: &PointOrder,
        known: &[PointOrder],
    ) -> Option<(PointOrder, PointOrder)>
        requires { All (IsForced self.now) known.now }
        ensures sound { IfSome result (λ orders. IsForced self.now there.now
            → IsForced self.now gone.now
            → IsForced self.now orders.0 × IsForced self.now orders.1) }
        ensures exact { result
            ≡ walk.taken (said.given_of self.now) known.now taker there.now gone.now }
    {
        let until = event_of(gone.to)?;
        let l = leaving(there, until, Some(taker))?;
        if l.until >= self.events.len() || gone.from != Point::Gone(l.file, l.slot) {
            return None;
        }
        if !self.is_walked(&WalkAim::Leaves(l), known) {
            return None;
        }
        Some((not_after(taker, gone.from), not_after(gone.from, taker)))
    }
}
