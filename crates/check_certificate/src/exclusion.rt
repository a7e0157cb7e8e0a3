//! Accesses that don't take a file from its slot: by the slot, by a known time, or by an answer.
ghost use Rattle.check_certificate.specs.Words.{ℕ, All, IfSome, IsTrue, true, Completed, Operation, Answered};
ghost use Rattle.std.specs.Prelude.{◌≡◌};
ghost use Rattle.fx_chain.specs.declared.intent.Intent.TheVariants.{Put as Installation};
ghost use Rattle.check_certificate.specs.Absent.{is_negative};
ghost use Rattle.check_certificate.specs.Evidence.{IsCallAt, IsEventAt};
ghost use Rattle.check_certificate.specs.Forced.{IsForced, IsForcedBy};
ghost use Rattle.check_certificate.specs.Taken.{IsNoOther, IsNoTaker, TakesNone, slot_taken};
ghost use Rattle.check_certificate.specs.declared.beginning.LogBeginning.{LogBeginning as In};
ghost use Rattle.check_certificate.specs.declared.certificate.Point.TheVariants.{Access, Put};
ghost use Rattle.check_certificate.specs.Holds as hold;
ghost use Rattle.check_certificate.specs.Leaves as leave;
ghost use Rattle.check_certificate.specs.Said as said;

use crate::absence::is_failure;
use crate::beginning::LogBeginning;
use crate::certificate::{Point, PointOrder};
use crate::known::{are_apart, is_apart, is_known};
use crate::rules::ordered;
use crate::walk::{Leaving, MemberAccess};
use fx_base::Closed as File;
use fx_chain::{Completion, Intent, Place};

// Checks whether a point is not the time at which the file leaves its slot, by a known order, or is
// that of the access that may take it.
#[tactic(auto, unfolding(crate::specs::Leaves::is_no_other))]
fn is_no_other(known: &[PointOrder], l: &Leaving, point: Point) -> bool
    ensures sound { IsTrue result → (b : In) → All (IsForced b) known.now
        → IsNoOther b l.now point }
    ensures exact { result ≡ leave.is_no_other known.now l.now point }
{
    if l.taker == Some(point) {
        return true;
    }
    are_apart(known, point, Point::Gone(l.file, l.slot))
}

// Returns the slot from which an access takes a file if there is one. Returns `None` if it takes
// none.
fn slot_of(intent: Intent) -> Option<u32>
    ensures { result ≡ slot_taken intent }
{
    match intent {
        Intent::Put(slot, _file) => Some(slot),
        Intent::Clear(slot) => Some(slot),
        Intent::Take(slot) => Some(slot),
        _ => None,
    }
}

// Checks whether an answer is that of the member at a place.
fn is_at(c: &Completion, place: Place) -> bool
    ensures sound { IsTrue result → c.now.place ≡ place }
    ensures exact { result ≡ hold.same_place c.now.place place }
{
    c.place == place
}

impl LogBeginning<'_> {
    /// Checks whether the event at a position is the answer of a member.
    #[tactic(auto, using(crate::proofs::Takers::answered_at))]
    pub(crate) fn is_answered_at(&self, answer: usize, place: Place) -> bool
        ensures sound { IsTrue result → (c : Completed)
            × IsEventAt self.now answer (Answered place.submission c) × (c.place ≡ place) }
        ensures exact { result ≡ hold.is_answered_at (said.given_of self.now) answer place }
    {
        match self.done_at(answer) {
            Some(c) => is_at(c, place),
            None => false,
        }
    }

    // Checks whether the event at a position is the answer of a member that failed.
    #[tactic(auto, using(crate::proofs::Takers::failed_at))]
    fn is_failed_at(&self, answer: usize, place: Place) -> bool
        ensures sound { IsTrue result → (c : Completed)
            × IsEventAt self.now answer (Answered place.submission c) × (c.place ≡ place)
            × (is_negative c.res ≡ true) }
        ensures exact { result ≡ leave.is_failed_at (said.given_of self.now) answer place }
    {
        match self.done_at(answer) {
            Some(c) => is_at(c, place) && is_failure(c),
            None => false,
        }
    }

    // Returns the order of a point that comes before the event at `answer`, and the time at which
    // the file leaves its slot, if that event isn't after the one at which the file isn't gone yet.
    #[tactic(auto, unfolding(crate::specs::Leaves::left_later))]
    fn left_later(
        &self,
        l: &Leaving,
        known: &[PointOrder],
        answered: &PointOrder,
        answer: usize,
    ) -> Option<PointOrder>
        requires { All (IsForced self.now) known.now }
        ensures sound { IfSome result (IsForcedBy self.now answered.now) }
        ensures exact { result ≡ leave.left_later (said.given_of self.now) l.now known.now
            answered.now answer }
    {
        let since = Point::Event(l.since);
        let gone = Point::Gone(l.file, l.slot);
        if !is_known(known, since, gone) {
            return None;
        }
        let there = ordered(since, gone);
        if answer == l.since {
            let sooner = self.joined(answered, &there)?;
            return Some(sooner);
        }
        let later = self.events_in_order(answer, l.since)?;
        let second = self.joined(&later, &there)?;
        let all = self.joined(answered, &second)?;
        Some(all)
    }

    // Checks whether a point that comes before the event at `answer` isn't the time at which the
    // file leaves its slot, since the file isn't gone yet at that event.
    #[tactic(auto, unfolding(crate::specs::Leaves::is_before))]
    fn is_before(
        &self,
        l: &Leaving,
        known: &[PointOrder],
        answered: &PointOrder,
        answer: usize,
        point: Point,
    ) -> bool
        requires { All (IsForced self.now) known.now }
        ensures sound { IsTrue result → IsForced self.now answered.now
            → IsNoOther self.now l.now point }
        ensures exact { result ≡ leave.is_before (said.given_of self.now) l.now known.now
            answered.now answer point }
    {
        match self.left_later(l, known, answered, answer) {
            Some(order) => is_apart(&order, point, Point::Gone(l.file, l.slot)),
            None => false,
        }
    }

    // Checks whether an access comes before its answer, and the file leaves its slot later.
    #[tactic(auto, unfolding(crate::specs::Leaves::is_early))]
    fn is_early(&self, l: &Leaving, known: &[PointOrder], by: MemberAccess, answer: usize) -> bool
        requires { All (IsForced self.now) known.now }
        ensures sound { IsTrue result → IsNoOther self.now l.now (Access answer by.access) }
        ensures exact { result
            ≡ leave.is_early (said.given_of self.now) l.now known.now by answer }
    {
        let point = Point::Access(answer, by.access);
        match self.ends(by.call, answer, by.access) {
            Some(ends) => self.is_before(l, known, &ends, answer, point),
            None => false,
        }
    }

    // Checks whether the access of a first member, which the event at `answer` answers, isn't at
    // the time at which the file leaves its slot, unless it is the one that may take it.
    #[tactic(auto, unfolding(crate::specs::Leaves::is_first_ruled_out))]
    fn is_first_ruled_out(
        &self,
        l: &Leaving,
        known: &[PointOrder],
        by: MemberAccess,
        answer: usize,
    ) -> bool
        requires { All (IsForced self.now) known.now }
        ensures sound { IsTrue result → IsCallAt self.now by.call by.place.submission
            → IsNoTaker self.now l.now by }
        ensures exact { result
            ≡ leave.is_first_ruled_out (said.given_of self.now) l.now known.now by answer }
    {
        if by.place.member != 1 || !self.is_answered_at(answer, by.place) {
            return false;
        }
        let Some(_evidence) = self.made(by.call, answer, by.access) else {
            return false;
        };
        if is_no_other(known, l, Point::Access(answer, by.access)) {
            return true;
        }
        self.is_early(l, known, by, answer)
    }

    // Checks whether an access doesn't take the file, unless it is the one that may, by the answer
    // of its member.
    #[tactic(auto, unfolding(crate::specs::Leaves::is_by_answer))]
    fn is_by_answer(&self, l: &Leaving, known: &[PointOrder], by: MemberAccess) -> bool
        requires { All (IsForced self.now) known.now }
        ensures sound { IsTrue result → IsCallAt self.now by.call by.place.submission
            → IsNoTaker self.now l.now by }
        ensures exact { result ≡ leave.is_by_answer (said.given_of self.now) l.now known.now by }
    {
        let Some(answer) = self.answer_of(by.call, by.place) else {
            return false;
        };
        if self.is_failed_at(answer, by.place) {
            return true;
        }
        self.is_first_ruled_out(l, known, by, answer)
    }

    // Checks whether an access, whatever it is, doesn't take the file, unless it is the one that
    // may: since its call begins later, or by its answer.
    #[tactic(auto, unfolding(crate::specs::Leaves::is_other_time))]
    fn is_other_time(&self, l: &Leaving, known: &[PointOrder], by: MemberAccess) -> bool
        requires { All (IsForced self.now) known.now }
        ensures sound { IsTrue result → IsNoTaker self.now l.now by }
        ensures exact { result ≡ leave.is_other_time (said.given_of self.now) l.now known.now by }
    {
        let Some(id) = self.call_at(by.call) else {
            return false;
        };
        if id != by.place.submission {
            return false;
        }
        if is_known(known, Point::Gone(l.file, l.slot), Point::Event(by.call)) {
            return true;
        }
        self.is_by_answer(l, known, by)
    }

    // Checks whether a file was installed before an answer, and the other one leaves its slot
    // later.
    #[tactic(auto, unfolding(crate::specs::Leaves::is_put_early))]
    fn is_put_early(&self, l: &Leaving, known: &[PointOrder], by: MemberAccess, file: File) -> bool
        requires { All (IsForced self.now) known.now }
        ensures sound { IsTrue result → IsNoOther self.now l.now (Put file) }
        ensures exact { result
            ≡ leave.is_put_early (said.given_of self.now) l.now known.now by file }
    {
        let Some(answer) = self.answer_of(by.call, by.place) else {
            return false;
        };
        match self.installs(by.call, answer, by.access) {
            Some(installs) => self.is_before(l, known, &installs, answer, Point::Put(file)),
            None => false,
        }
    }

    // Checks whether an access that installs a file at the slot doesn't take the other file, unless
    // it is the one that may.
    #[tactic(auto, unfolding(crate::specs::Leaves::put_takes_none))]
    fn put_takes_none(
        &self,
        l: &Leaving,
        known: &[PointOrder],
        by: MemberAccess,
        file: File,
    ) -> bool
        requires { All (IsForced self.now) known.now }
        ensures sound { IsTrue result → (operation : Operation) (slot : ℕ)
            → TakesNone self.now l.now by.place operation by.access (Installation slot file) }
        ensures exact { result
            ≡ leave.put_takes_none (said.given_of self.now) l.now known.now by file }
    {
        if file == l.file {
            return true;
        }
        if is_no_other(known, l, Point::Put(file)) {
            return true;
        }
        if self.is_put_early(l, known, by, file) {
            return true;
        }
        self.is_other_time(l, known, by)
    }

    /// Checks whether an access that a member of a call intends doesn't take the file from its
    /// slot, unless it is the one that may.
    #[tactic(auto, unfolding(crate::specs::Leaves::takes_none))]
    pub(crate) fn takes_none(
        &self,
        l: &Leaving,
        known: &[PointOrder],
        by: MemberAccess,
        intent: Intent,
    ) -> bool
        requires { All (IsForced self.now) known.now }
        ensures sound { IsTrue result → (operation : Operation)
            → TakesNone self.now l.now by.place operation by.access intent }
        ensures exact { result
            ≡ leave.takes_none (said.given_of self.now) l.now known.now by intent }
    {
        let Some(slot) = slot_of(intent) else {
            return true;
        };
        if slot != l.slot {
            return true;
        }
        match intent {
            Intent::Put(_slot, file) => self.put_takes_none(l, known, by, file),
            _ => self.is_other_time(l, known, by),
        }
    }
}
