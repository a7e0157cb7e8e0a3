//! Orders that show that a file isn't at a slot just before an access.
ghost use Rattle.check_certificate.specs.Words.{ℕ, IfSome, IsTrue, true, Submitted, Gone};
ghost use Rattle.std.specs.Prelude.{◌≡◌};
ghost use Rattle.check_certificate.specs.Absent.{is_negative};
ghost use Rattle.check_certificate.specs.Forced.{IsForced};
ghost use Rattle.check_certificate.specs.declared.certificate.Point.TheVariants.{Access, Put};
ghost use Rattle.check_certificate.specs.Holds as hold;
ghost use Rattle.check_certificate.specs.Said as said;

use crate::beginning::LogBeginning;
use crate::certificate::{Holding, Point, PointOrder};
use crate::events::call_of;
use crate::evidence::Evidence;
use crate::rules::{not_after, ordered};
use crate::walk::MemberAccess;
use fx_base::{Closed as File, Mark};
use fx_chain::{Completion, Place};

/// Checks whether an order says that a file is installed after the access.
pub(crate) fn is_later(order: &PointOrder, h: &Holding, file: File) -> bool
    ensures sound { IsTrue result → (order.now.from ≡ Access h.now.answer h.now.access)
        × (order.now.to ≡ Put file) }
    ensures exact { result ≡ hold.is_later order.now h.now file }
{
    order.from == Point::Access(h.answer, h.access) && order.to == Point::Put(file)
}

/// Checks whether an order says that a file is gone from the slot before the access.
pub(crate) fn is_gone(order: &PointOrder, h: &Holding, file: File) -> bool
    ensures sound { IsTrue result → order.now ≡ record {
      from = Gone file h.now.slot;
      to = Access h.now.answer h.now.access;
      strict = true;
    } }
    ensures exact { result ≡ hold.is_gone order.now h.now file }
{
    order.strict
        && order.from == Point::Gone(file, h.slot)
        && order.to == Point::Access(h.answer, h.access)
}

// Checks whether a file has the mark of a member of a call.
fn is_of_member(file: File, place: Place) -> bool
    ensures sound { IsTrue result → (entry : ℕ) × (file.mark
        ≡ Submitted place.submission 1 place.member entry) }
    ensures exact { result ≡ hold.is_mark_of place file.mark }
{
    match file.mark {
        Mark::Submitted {
            submission,
            chain,
            member,
            ..
        } => submission == place.submission && chain == 1 && member == place.member,
        Mark::Registered { .. } => false,
    }
}

/// Checks whether an answer is a failure.
pub(crate) fn is_failure(c: &Completion) -> bool
    ensures { result ≡ is_negative c.now.res }
{
    c.res < 0
}

impl LogBeginning<'_> {
    /// Returns the order of an event and the installation of a file that no access installs: the
    /// event at `own` is the failure of the file's member.
    #[tactic(auto, unfolding(crate::specs::Holds::fails))]
    pub(crate) fn fails(&self, event: usize, own: usize, file: File) -> Option<PointOrder>
        ensures sound { IfSome result (IsForced self.now) }
        ensures exact { result ≡ hold.fails (said.given_of self.now) event own file }
    {
        let c = self.done_at(own)?;
        if !is_failure(c) || event >= self.events.len() || !is_of_member(file, c.place) {
            return None;
        }
        Some(ordered(Point::Event(event), Point::Put(file)))
    }

    // Returns the order of a file's removal from a slot and an event, where the file was
    // installed at another slot.
    #[tactic(auto, unfolding(crate::specs::Holds::elsewhere))]
    fn elsewhere(
        &self,
        call: usize,
        answer: usize,
        access: usize,
        slot: u32,
        event: usize,
    ) -> Option<PointOrder>
        ensures sound { IfSome result (IsForced self.now) }
        ensures exact { result
            ≡ hold.elsewhere (said.given_of self.now) call answer access slot event }
    {
        let evidence = self.made(call, answer, access)?;
        let Evidence::Installs(own, file) = evidence else {
            return None;
        };
        let _call = call_of(file)?;
        if own == slot {
            return None;
        }
        Some(not_after(Point::Gone(file, slot), Point::Event(event)))
    }

    // Returns the order of a file's removal and the access that `since` names, before which
    // the file was installed, and which leaves the slot without it.
    #[tactic(auto, unfolding(crate::specs::Holds::replaced))]
    fn replaced(&self, h: &Holding, call: usize, answer: usize, access: usize) -> Option<PointOrder>
        ensures sound { IfSome result (IsForced self.now) }
        ensures exact { result ≡ hold.replaced (said.given_of self.now) h.now call answer access }
    {
        let (later, later_answer, number) = h.since;
        let installs = self.installs(call, answer, access)?;
        let next = self.events_in_order(answer, later)?;
        let begins = self.begins(later, later_answer, number)?;
        let first = self.joined(&installs, &next)?;
        let installed = self.joined(&first, &begins)?;
        let gone = self.empties(later, later_answer, number, &installed)?;
        let ends = self.ends(later, later_answer, number)?;
        let past = self.events_in_order(later_answer, h.call)?;
        let second = self.joined(&gone, &ends)?;
        self.joined(&second, &past)
    }

    /// Returns the position of the answer of a member, from that of its call on.
    #[tactic(auto, unfolding(crate::specs::Holds::answer_of))]
    pub(crate) fn answer_of(&self, call: usize, place: Place) -> Option<usize>
        ensures { result ≡ hold.answer_of (said.given_of self.now) call place }
    {
        for at in call..self.events.len() {
            if self.is_answered_at(at, place) {
                return Some(at);
            }
        }
        None
    }

    /// Returns an order by which the file of an access that a member of a call intends isn't at
    /// the slot just before the access of `h`: by the answer of that member.
    #[tactic(auto, unfolding(crate::specs::Holds::absence))]
    pub(crate) fn absence(&self, h: &Holding, by: MemberAccess, file: File) -> Option<PointOrder>
        ensures sound { IfSome result (IsForced self.now) }
        ensures exact { result ≡ hold.absence (said.given_of self.now) h.now by file }
    {
        let answer = self.answer_of(by.call, by.place)?;
        let ends = self.ends(h.call, h.answer, h.access)?;
        if let Some(failed) = self.fails(h.answer, answer, file) {
            return self.joined(&ends, &failed);
        }
        let begins = self.begins(h.call, h.answer, h.access)?;
        if let Some(other) = self.elsewhere(by.call, answer, by.access, h.slot, h.call) {
            return self.joined(&other, &begins);
        }
        let gone = self.replaced(h, by.call, answer, by.access)?;
        self.joined(&gone, &begins)
    }
}
