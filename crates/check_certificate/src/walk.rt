//! The walk over all accesses that calls intend before an event. A rule about a file that may be
//! anywhere excludes each of them, but for those that it names.
ghost use Rattle.check_certificate.specs.Words.{All, IsTrue, Some, IsCatalogue, Operation, all_asked, asked_of, operation_of, Intent as Purpose};
ghost use Rattle.check_certificate.specs.Words.{happening_of};
ghost use Rattle.std.specs.Prelude.{◌≡◌};
ghost use Rattle.check_certificate.specs.Forced.{IsForced};
ghost use Rattle.check_certificate.specs.Walked.{AreAllRuledOut, AreRuledOut, IsCallRuledOut, IsRuledOut, IsWalked, end_of, member_of};
ghost use Rattle.check_certificate.specs.Said as said;
ghost use Rattle.check_certificate.specs.Walks as walk;

use crate::beginning::LogBeginning;
use crate::certificate::{Holding, Point, PointOrder};
use crate::landing::{lands_there, misses_there};
use fx_base::Closed as File;
use fx_chain::{Intent, Place, Request};
use fx_flight::LogEvent;

/// A file that leaves its slot.
#[derive(Clone, Copy, Debug)]
pub(crate) struct Leaving {
    /// The file.
    pub(crate) file: File,
    /// The slot.
    pub(crate) slot: u32,
    /// The position of an event at which the file isn't gone yet.
    pub(crate) since: usize,
    /// The position of the event before which it is gone.
    pub(crate) until: usize,
    /// The only access that may take it, or `None` if none may.
    pub(crate) taker: Option<Point>,
}

/// A file that an access installs, and a slot.
#[derive(Clone, Copy, Debug)]
pub(crate) struct Landing {
    /// The file.
    pub(crate) file: File,
    /// The slot.
    pub(crate) slot: u32,
    /// The position of the event before which it is installed.
    pub(crate) until: usize,
}

/// An access that a member of a call may make.
#[derive(Clone, Copy, Debug)]
pub(crate) struct MemberAccess {
    /// The position of the call.
    pub(crate) call: usize,
    /// The place of the member.
    pub(crate) place: Place,
    /// The number of the access.
    pub(crate) access: usize,
}

/// A rule, by which each access before an event is checked.
#[derive(Clone, Copy, Debug)]
pub(crate) enum WalkAim {
    /// An access finds a file: none may have installed another file.
    Finds(Holding),
    /// A file leaves its slot: none but one may have taken it.
    Leaves(Leaving),
    /// A file is installed: none may have installed it at another slot.
    Lands(Landing),
    /// A file is installed: none may have installed it at this slot.
    Misses(Landing),
}

// Returns the position of the event before which the calls begin.
fn end_of(aim: &WalkAim) -> usize
    ensures { result ≡ end_of aim.now }
{
    match aim {
        WalkAim::Finds(h) => h.answer,
        WalkAim::Leaves(l) => l.until,
        WalkAim::Lands(l) => l.until,
        WalkAim::Misses(l) => l.until,
    }
}

impl LogBeginning<'_> {
    // Checks whether an access that a member of a call intends isn't one that the rule excludes.
    fn is_ruled_out(
        &self,
        aim: &WalkAim,
        known: &[PointOrder],
        by: MemberAccess,
        intent: Option<Intent>,
    ) -> bool
        requires { All (IsForced self.now) known.now }
        ensures sound { IsTrue result → (operation : Operation) (own : Purpose)
            → intent ≡ Some own → IsRuledOut self.now aim.now by.place operation by.access own }
        ensures exact { result
            ≡ walk.is_ruled_out (said.given_of self.now) known.now aim.now by intent }
    {
        let Some(own) = intent else {
            return true;
        };
        match *aim {
            WalkAim::Finds(h) => self.installs_none(&h, known, by, own),
            WalkAim::Leaves(l) => self.takes_none(&l, known, by, own),
            WalkAim::Lands(l) => lands_there(&l, own),
            WalkAim::Misses(l) => misses_there(&l, own),
        }
    }

    // Checks the same of all accesses of a member.
    #[tactic(auto, unfolding(crate::specs::Walks::are_ruled_out))]
    fn are_ruled_out(
        &self,
        aim: &WalkAim,
        known: &[PointOrder],
        call: usize,
        place: Place,
        request: &Request,
    ) -> bool
        requires { All (IsForced self.now) known.now }
        ensures sound { IsTrue result → IsCatalogue self.now.catalogue.now
            → AreRuledOut self.now aim.now place (operation_of request.now.op) }
        ensures exact { result ≡ walk.are_ruled_out (said.given_of self.now) known.now aim.now call
            place (operation_of request.now.op) }
    {
        for access in 0..request.accesses() {
            let intent = self.intended(place, request, access);
            let by = MemberAccess {
                call,
                place,
                access,
            };
            if !self.is_ruled_out(aim, known, by, intent) {
                return false;
            }
        }
        true
    }

    // Checks the same of the member of a call with a number, from 0.
    #[tactic(auto, unfolding(crate::specs::Walks::is_member_ruled_out))]
    fn is_member_ruled_out(
        &self,
        aim: &WalkAim,
        known: &[PointOrder],
        call: usize,
        id: u32,
        n: usize,
        request: &Request,
    ) -> bool
        requires { All (IsForced self.now) known.now }
        ensures sound { IsTrue result → IsCatalogue self.now.catalogue.now
            → AreRuledOut self.now aim.now (member_of id n) (operation_of request.now.op) }
        ensures exact { result ≡ walk.is_member_ruled_out (said.given_of self.now) known.now aim.now
            call id n (asked_of request.now) }
    {
        let Ok(before) = u32::try_from(n) else {
            return false;
        };
        let Some(member) = before.checked_add(1) else {
            return false;
        };
        let place = Place {
            submission: id,
            chain: 1,
            member,
        };
        self.are_ruled_out(aim, known, call, place, request)
    }

    // Checks the same of all members of a call.
    #[tactic(auto, unfolding(crate::specs::Walks::are_all_ruled_out))]
    fn are_all_ruled_out(
        &self,
        aim: &WalkAim,
        known: &[PointOrder],
        call: usize,
        id: u32,
        chain: &[Request],
    ) -> bool
        requires { All (IsForced self.now) known.now }
        ensures sound { IsTrue result → IsCatalogue self.now.catalogue.now
            → AreAllRuledOut self.now aim.now id (all_asked chain.now) }
        ensures exact { result ≡ walk.are_all_ruled_out (said.given_of self.now) known.now aim.now
            call id (all_asked chain.now) }
    {
        for n in 0..chain.len() {
            if !self.is_member_ruled_out(aim, known, call, id, n, &chain[n]) {
                return false;
            }
        }
        true
    }

    // Checks the same of an event, if it is a call.
    fn is_call_ruled_out(
        &self,
        aim: &WalkAim,
        known: &[PointOrder],
        at: usize,
        event: &LogEvent,
    ) -> bool
        requires { All (IsForced self.now) known.now }
        ensures sound { IsTrue result → IsCatalogue self.now.catalogue.now
            → IsCallRuledOut self.now aim.now (happening_of event.now) }
        ensures exact { result ≡ walk.is_call_ruled_out (said.given_of self.now) known.now aim.now
            at (Some (happening_of event.now)) }
    {
        match event {
            LogEvent::Call { id, chain } => {
                self.are_all_ruled_out(aim, known, at, *id, chain.as_slice())
            }
            _ => true,
        }
    }

    /// Checks the same of all calls before the event.
    #[tactic(auto, unfolding(crate::specs::Walks::is_walked))]
    pub(crate) fn is_walked(&self, aim: &WalkAim, known: &[PointOrder]) -> bool
        requires { All (IsForced self.now) known.now }
        ensures sound { IsTrue result → IsCatalogue self.now.catalogue.now
            → IsWalked self.now aim.now }
        ensures exact { result ≡ walk.is_walked (said.given_of self.now) known.now aim.now }
    {
        let end = end_of(aim);
        for at in 0..self.events.len() {
            if at < end && !self.is_call_ruled_out(aim, known, at, &self.events[at]) {
                return false;
            }
        }
        true
    }
}
