//! The rule of two members of a chain that follow each other: the later one is canceled if and only
//! if the earlier one severs the chain or is canceled itself.
ghost use Rattle.check_certificate.specs.Words.{IfSome, option_map, completed_of, asked_of, happening_of};
ghost use Rattle.std.specs.Prelude.{◌≡◌};
ghost use Rattle.check_certificate.specs.Forced.{IsForced};
ghost use Rattle.check_certificate.specs.Cut as rule;
ghost use Rattle.check_certificate.specs.Said as said;

use crate::beginning::LogBeginning;
use crate::certificate::{Point, PointOrder};
use crate::evidence::member_of;
use crate::rules::ordered;
use fx_base::Errno;
use fx_chain::{Completion, Request};
use fx_flight::LogEvent;

/// Returns the request of a call that an answer of the call answers.
pub(crate) fn asked_by<'e>(begins: &'e LogEvent, c: &Completion) -> Option<&'e Request>
    ensures { option_map (λ request. asked_of request.now) result
        ≡ rule.asked_by (happening_of begins.now) (completed_of c.now) }
{
    let LogEvent::Call { id, chain } = begins else {
        return None;
    };
    if c.place.submission != *id {
        return None;
    }
    member_of(chain.as_slice(), c.place.member)
}

// Checks whether the member after a request with this answer is canceled.
fn is_cut(request: &Request, c: &Completion) -> bool
    ensures { result ≡ rule.is_cut (asked_of request.now) (completed_of c.now) }
{
    request.severs(c) || c.is_error(Errno::ECANCELED)
}

/// Checks whether the answer of the member after a request with an answer contradicts that one.
pub fn is_cut_wrongly(request: &Request, c: &Completion, next: &Completion) -> bool
    ensures { result ≡ rule.is_cut_wrongly (asked_of request.now) (completed_of c.now)
        (completed_of next.now) }
{
    if is_cut(request, c) {
        !next.is_error(Errno::ECANCELED)
    } else {
        next.is_error(Errno::ECANCELED)
    }
}

// Checks whether one of two answers of a call is that of the member after the other one's.
fn is_next(c: &Completion, next: &Completion) -> bool
    ensures { result ≡ rule.is_next (completed_of c.now) (completed_of next.now) }
{
    c.place.member > 0 && next.place.member as u64 == c.place.member as u64 + 1
}

impl LogBeginning<'_> {
    /// Returns a contradiction if the answer of a member contradicts that of the member before it.
    #[tactic(auto, unfolding(crate::specs::Cut::cut))]
    pub(crate) fn cut(&self, call: usize, before: usize, answer: usize) -> Option<PointOrder>
        ensures sound { IfSome result (IsForced self.now) }
        ensures exact { result ≡ rule.cut (said.given_of self.now) call before answer }
    {
        let begins = self.event_at(call)?;
        let c = self.done_at(before)?;
        let next = self.done_at(answer)?;
        let request = asked_by(begins, c)?;
        let _asked = asked_by(begins, next)?;
        if !is_next(c, next) || !is_cut_wrongly(request, c, next) {
            return None;
        }
        Some(ordered(Point::Event(answer), Point::Event(answer)))
    }
}
