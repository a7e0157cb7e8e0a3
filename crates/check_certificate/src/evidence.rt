//! Evidence in the answers of a log: accesses that were made, and the files that they install or
//! find.
ghost use Rattle.check_certificate.specs.Words.{IfSome, nat_lt, option_map, slice_get, completed_of, IsIntent, all_asked, asked_of, operation_of};
ghost use Rattle.check_certificate.specs.Words.{Called, LookCalled, happening_of};
ghost use Rattle.std.specs.Prelude.{◌≡◌, ◌-◌};
ghost use Rattle.check_certificate.specs.Evidence.{IsAccessMade, IsEvidentByMember, IsEvidentByLook, IsShownBy, left_at, slot_count, evidence_of};
ghost use Rattle.check_certificate.specs.Made as rule;
ghost use Rattle.check_certificate.specs.Said as said;

use crate::answers::is_impossible;
use crate::beginning::LogBeginning;
use fx_base::{Closed as File, Errno};
use fx_chain::{Completion, Intent, Place, Request, intent_of};
use fx_flight::LogEvent;

/// The evidence in an answer for one access of its member.
#[derive(Clone, Copy, Debug)]
pub enum Evidence {
    /// The access takes a file from the slot.
    Removes(u32),
    /// The access finds some file at the slot.
    Sees(u32),
    /// The access finds a file at each slot of the allocation range.
    Full,
    /// The access leaves the slot empty.
    Empties(u32),
    /// The access installs the file at the slot.
    Installs(u32, File),
    /// The access finds the file at the slot.
    Finds(u32, File),
    /// There is no such answer.
    Never,
}

impl Evidence {
    /// Returns the slot of the access, and the file that it leaves there, or `None` if the slot is
    /// empty afterwards. Returns `None` if the answer doesn't say so.
    pub fn left(self) -> Option<(u32, Option<File>)>
        ensures { result ≡ left_at self }
    {
        match self {
            Evidence::Sees(_) | Evidence::Full | Evidence::Never => None,
            Evidence::Empties(slot) | Evidence::Removes(slot) => Some((slot, None)),
            Evidence::Installs(slot, file) | Evidence::Finds(slot, file) => Some((
                slot,
                Some(file),
            )),
        }
    }
}

/// Returns the evidence in the answer of a request for the access that it intended.
pub fn evidence_of(intent: Intent, c: &Completion) -> Evidence
    ensures { result ≡ evidence_of intent c.now.res }
{
    match intent {
        Intent::Put(slot, file) => Evidence::Installs(slot, file),
        Intent::Allocate(file) => match u32::try_from(c.res) {
            Ok(slot) => Evidence::Installs(slot, file),
            Err(_) => Evidence::Full,
        },
        Intent::Clear(slot) => Evidence::Empties(slot),
        Intent::Take(slot) if c.res >= 0 => Evidence::Removes(slot),
        Intent::Look(slot) if c.res >= 0 => Evidence::Sees(slot),
        Intent::Take(slot) | Intent::Look(slot) => Evidence::Empties(slot),
    }
}

/// Returns the member of a chain with this number, from 1.
pub(crate) fn member_of(chain: &[Request], member: u32) -> Option<&Request>
    ensures { option_map (λ request. asked_of request.now) result
        ≡ slice_get (all_asked chain.now) (member - 1) }
{
    chain.get((member as usize).saturating_sub(1))
}

impl LogBeginning<'_> {
    /// Returns the access that a request at a place intends after `made` others.
    pub(crate) fn intended(&self, place: Place, request: &Request, made: usize) -> Option<Intent>
        ensures sound { IsIntent self.now.catalogue.now (slot_count self.now) place
            (operation_of request.now.op) made result }
        ensures exact { result ≡ rule.intended self.now.catalogue.now (slot_count self.now) place
            (operation_of request.now.op) made }
    {
        intent_of(self.catalogue, self.size, place, request, made)
    }

    // Returns the evidence in the answer of a request for one of its accesses.
    #[tactic(auto, unfolding(crate::specs::Made::evidence_by_member))]
    fn evidence_by_member(
        &self,
        request: &Request,
        c: &Completion,
        access: usize,
    ) -> Option<Evidence>
        ensures sound { IfSome result (λ evidence. IsEvidentByMember self.now.catalogue.now
            (slot_count self.now) (completed_of c.now) (asked_of request.now) access evidence) }
        ensures exact { result ≡ rule.evidence_by_member (said.given_of self.now)
            (completed_of c.now) (asked_of request.now) access }
    {
        if is_impossible(self.catalogue, self.size, request, c) {
            return Some(Evidence::Never);
        }
        if c.is_error(Errno::ECANCELED) || c.is_error(Errno::ENOMEM) {
            return None;
        }
        let intent = self.intended(c.place, request, access)?;
        Some(evidence_of(intent, c))
    }

    // Returns the evidence in the answer of a look for its access.
    fn evidence_by_look(&self, slot: u32, found: Option<File>) -> Option<Evidence>
        ensures sound { IfSome result (IsEvidentByLook (slot_count self.now) slot found 0) }
        ensures exact { result ≡ said.only_if (nat_lt slot (slot_count self.now))
            (rule.evidence_found slot found) }
    {
        if slot as usize >= self.slots.at.len() {
            return None;
        }
        Some(match found {
            Some(file) => Evidence::Finds(slot, file),
            None => Evidence::Empties(slot),
        })
    }

    // Returns the evidence in an event that answers a chain for an access of its member.
    fn evidence_by_answer(
        &self,
        id: u32,
        chain: &[Request],
        answer: &LogEvent,
        access: usize,
    ) -> Option<Evidence>
        ensures sound { IfSome result (IsShownBy self.now (Called id (all_asked chain.now))
            (happening_of answer.now) access) }
        ensures exact { result ≡ rule.shown (said.given_of self.now)
            (Called id (all_asked chain.now)) (happening_of answer.now) access }
    {
        let LogEvent::Done(c) = answer else {
            return None;
        };
        if c.place.submission != id {
            return None;
        }
        let request = member_of(chain, c.place.member)?;
        let evidence = self.evidence_by_member(request, c, access)?;
        Some(evidence)
    }

    // Returns the evidence in an event that answers a look for its access.
    fn evidence_by_found(
        &self,
        id: u32,
        slot: u32,
        answer: &LogEvent,
        access: usize,
    ) -> Option<Evidence>
        ensures sound { IfSome result (IsShownBy self.now (LookCalled id slot)
            (happening_of answer.now) access) }
        ensures exact { result ≡ rule.shown (said.given_of self.now) (LookCalled id slot)
            (happening_of answer.now) access }
    {
        let LogEvent::Found { id: other, file } = answer else {
            return None;
        };
        if *other != id || access != 0 {
            return None;
        }
        let evidence = self.evidence_by_look(slot, *file)?;
        Some(evidence)
    }

    /// Returns the evidence in the event at `answer` for the access with this number of its member.
    /// Returns `None` unless the event at `call` is its call.
    #[tactic(auto, unfolding(crate::specs::Made::made))]
    pub(crate) fn made(&self, call: usize, answer: usize, access: usize) -> Option<Evidence>
        ensures sound { IfSome result (IsAccessMade self.now call answer access) }
        ensures exact { result ≡ rule.made (said.given_of self.now) call answer access }
    {
        let begins = self.event_at(call)?;
        let ends = self.event_at(answer)?;
        match begins {
            LogEvent::Call { id, chain } => {
                let evidence = self.evidence_by_answer(*id, chain.as_slice(), ends, access)?;
                Some(evidence)
            }
            LogEvent::Look { id, slot } => {
                let said = self.evidence_by_found(*id, *slot, ends, access)?;
                Some(said)
            }
            _ => None,
        }
    }
}
