//! The rules of certificates: the order that each step adds, if its premises hold.
ghost use Rattle.check_certificate.specs.Words.{IfSome, false, true};
ghost use Rattle.std.specs.Prelude.{◌≡◌};
ghost use Rattle.check_certificate.specs.Forced.{IsForced, IsForcedByBoth};
ghost use Rattle.check_certificate.specs.Rules as rule;
ghost use Rattle.check_certificate.specs.Said as said;

use crate::beginning::LogBeginning;
use crate::certificate::{Point, PointOrder};
use crate::events::call_of;
use crate::evidence::Evidence;
use fx_base::Closed as File;

/// Returns the order of a point that comes before another one.
pub(crate) fn ordered(from: Point, to: Point) -> PointOrder
    ensures { result ≡ record { from = from; to = to; strict = true } }
{
    PointOrder {
        from,
        to,
        strict: true,
    }
}

/// Returns the order of a point that doesn't come after another one.
pub(crate) fn not_after(from: Point, to: Point) -> PointOrder
    ensures { result ≡ record { from = from; to = to; strict = false } }
{
    PointOrder {
        from,
        to,
        strict: false,
    }
}

impl LogBeginning<'_> {
    /// Returns the order from the first point of one order to the second point of another one that
    /// begins where the first one ends.
    #[tactic(auto, unfolding(crate::specs::Rules::joined))]
    pub(crate) fn joined(&self, first: &PointOrder, second: &PointOrder) -> Option<PointOrder>
        ensures sound { IfSome result (IsForcedByBoth self.now first.now second.now) }
        ensures exact { result ≡ rule.joined first.now second.now }
    {
        if first.to != second.from {
            return None;
        }
        Some(PointOrder {
            from: first.from,
            to: second.to,
            strict: if first.strict { true } else { second.strict },
        })
    }

    /// Returns the order of two events.
    #[tactic(auto, unfolding(crate::specs::Rules::events_in_order))]
    pub(crate) fn events_in_order(&self, earlier: usize, later: usize) -> Option<PointOrder>
        ensures sound { IfSome result (IsForced self.now) }
        ensures exact { result ≡ rule.events_in_order (said.given_of self.now) earlier later }
    {
        if earlier >= later || later >= self.events.len() {
            return None;
        }
        Some(ordered(Point::Event(earlier), Point::Event(later)))
    }

    /// Returns the order of a call and one of its accesses.
    #[tactic(auto, using(crate::proofs::Forcing::begins_forced), unfolding(crate::specs::Rules::begins))]
    pub(crate) fn begins(&self, call: usize, answer: usize, access: usize) -> Option<PointOrder>
        ensures sound { IfSome result (IsForced self.now) }
        ensures exact { result ≡ rule.begins (said.given_of self.now) call answer access }
    {
        let _evidence = self.made(call, answer, access)?;
        Some(ordered(Point::Event(call), Point::Access(answer, access)))
    }

    /// Returns the order of an access and the answer of its member.
    #[tactic(auto, using(crate::proofs::Forcing::ends_forced), unfolding(crate::specs::Rules::ends))]
    pub(crate) fn ends(&self, call: usize, answer: usize, access: usize) -> Option<PointOrder>
        ensures sound { IfSome result (IsForced self.now) }
        ensures exact { result ≡ rule.ends (said.given_of self.now) call answer access }
    {
        let _evidence = self.made(call, answer, access)?;
        Some(ordered(Point::Access(answer, access), Point::Event(answer)))
    }

    /// Returns the order of a call and the access that installs a file with its mark.
    pub(crate) fn calls(&self, call: usize, file: File) -> Option<PointOrder>
        ensures sound { IfSome result (IsForced self.now) }
        ensures exact { result ≡ rule.calls (said.given_of self.now) call file }
    {
        let id = self.call_at(call)?;
        let own = call_of(file)?;
        if own != id {
            return None;
        }
        Some(ordered(Point::Event(call), Point::Put(file)))
    }

    /// Returns the order of the access that installs a file and the answer of its member.
    #[tactic(auto, using(crate::proofs::Forcing::installs_forced), unfolding(crate::specs::Rules::installs))]
    pub(crate) fn installs(&self, call: usize, answer: usize, access: usize) -> Option<PointOrder>
        ensures sound { IfSome result (IsForced self.now) }
        ensures exact { result ≡ rule.installs (said.given_of self.now) call answer access }
    {
        let evidence = self.made(call, answer, access)?;
        match evidence {
            Evidence::Installs(_slot, file) => Some(ordered(
                Point::Put(file),
                Point::Event(answer),
            )),
            _ => None,
        }
    }

    /// Returns the order of the access that installs a file and the file's removal.
    #[tactic(auto, using(crate::proofs::Forcing::places_forced))]
    pub(crate) fn places(&self, call: usize, answer: usize, access: usize) -> Option<PointOrder>
        ensures sound { IfSome result (IsForced self.now) }
        ensures exact { result ≡ rule.places (said.given_of self.now) call answer access }
    {
        let evidence = self.made(call, answer, access)?;
        match evidence {
            Evidence::Installs(slot, file) => Some(ordered(
                Point::Put(file),
                Point::Gone(file, slot),
            )),
            _ => None,
        }
    }

    /// Returns the order of the access that installs a file and a look that finds it.
    pub(crate) fn follows(&self, call: usize, answer: usize) -> Option<PointOrder>
        ensures sound { IfSome result (IsForced self.now) }
        ensures exact { result ≡ rule.follows (said.given_of self.now) call answer }
    {
        let evidence = self.made(call, answer, 0)?;
        match evidence {
            Evidence::Finds(_slot, file) => {
                let _own = call_of(file)?;
                Some(ordered(Point::Put(file), Point::Access(answer, 0)))
            }
            _ => None,
        }
    }

    /// Returns the order of a look that finds a file and the file's removal.
    #[tactic(auto, using(crate::proofs::Forcing::finds_forced))]
    pub(crate) fn finds(&self, call: usize, answer: usize) -> Option<PointOrder>
        ensures sound { IfSome result (IsForced self.now) }
        ensures exact { result ≡ rule.finds (said.given_of self.now) call answer }
    {
        let evidence = self.made(call, answer, 0)?;
        match evidence {
            Evidence::Finds(slot, file) => {
                Some(ordered(Point::Access(answer, 0), Point::Gone(file, slot)))
            }
            _ => None,
        }
    }

    /// Returns the order of a file's removal from a slot and its close.
    pub(crate) fn closes(&self, close: usize, slot: u32) -> Option<PointOrder>
        ensures sound { IfSome result (IsForced self.now) }
        ensures exact { result ≡ rule.closes (said.given_of self.now) close slot }
    {
        let file = self.close_at(close)?;
        let _own = call_of(file)?;
        Some(ordered(Point::Gone(file, slot), Point::Event(close)))
    }

    /// Returns the order of the access that installed a file and the file's close.
    pub(crate) fn existed(&self, close: usize) -> Option<PointOrder>
        ensures sound { IfSome result (IsForced self.now) }
        ensures exact { result ≡ rule.existed (said.given_of self.now) close }
    {
        let file = self.close_at(close)?;
        let _own = call_of(file)?;
        Some(ordered(Point::Put(file), Point::Event(close)))
    }
}
