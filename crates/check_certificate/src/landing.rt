//! The rule of a file that was installed: at the only slot at which a call may install it.
ghost use Rattle.check_certificate.specs.Words.{All, IfSome, IsTrue};
ghost use Rattle.std.specs.Prelude.{◌≡◌};
ghost use Rattle.check_certificate.specs.Forced.{IsForced, IsForcedBy};
ghost use Rattle.check_certificate.specs.Landed.{IsInstalledBefore, LandsThere, MissesThere};
ghost use Rattle.check_certificate.specs.Said as said;
ghost use Rattle.check_certificate.specs.Walks as walk;

use crate::beginning::LogBeginning;
use crate::certificate::{Point, PointOrder};
use crate::events::call_of;
use crate::rules::{not_after, ordered};
use crate::walk::{Landing, WalkAim};
use fx_chain::Intent;

/// Checks whether an access that is intended installs the file at the slot, or doesn't install it.
pub(crate) fn lands_there(l: &Landing, intent: Intent) -> bool
    ensures sound { IsTrue result → LandsThere l.now intent }
    ensures exact { result ≡ walk.lands_there l.now intent }
{
    match intent {
        Intent::Put(slot, file) => slot == l.slot || file != l.file,
        Intent::Allocate(file) => file != l.file,
        _ => true,
    }
}

/// Checks whether an access that is intended installs the file at another slot, or doesn't install
/// it.
pub(crate) fn misses_there(l: &Landing, intent: Intent) -> bool
    ensures sound { IsTrue result → MissesThere l.now intent }
    ensures exact { result ≡ walk.misses_there l.now intent }
{
    match intent {
        Intent::Put(slot, file) => slot != l.slot || file != l.file,
        Intent::Allocate(file) => file != l.file,
        _ => true,
    }
}

impl LogBeginning<'_> {
    /// Returns the file that is installed before an event, by the order of both.
    pub(crate) fn landing(&self, installed: &PointOrder, slot: u32) -> Option<Landing>
        ensures sound { IfSome result (λ l. IsForced self.now installed.now
            → IsInstalledBefore self.now l) }
        ensures exact { result ≡ walk.landing installed.now slot }
    {
        let Point::Put(file) = installed.from else {
            return None;
        };
        let Point::Event(until) = installed.to else {
            return None;
        };
        installed.strict.then_some(Landing { file, slot, until })
    }

    /// Returns the order of the access that installs a file and the file's removal from the only
    /// slot at which it may be installed.
    #[tactic(auto, unfolding(crate::specs::Walks::lands))]
    pub(crate) fn lands(&self, l: Landing, known: &[PointOrder]) -> Option<PointOrder>
        requires { All (IsForced self.now) known.now }
        ensures sound { IfSome result (λ order. IsInstalledBefore self.now l
            → IsForced self.now order) }
        ensures exact { result ≡ walk.lands (said.given_of self.now) known.now l }
    {
        if l.until >= self.events.len() || !self.is_walked(&WalkAim::Lands(l), known) {
            return None;
        }
        Some(ordered(Point::Put(l.file), Point::Gone(l.file, l.slot)))
    }

    /// Returns the order of a file's removal from a slot at which it wasn't installed, and of its
    /// installation.
    #[tactic(auto, unfolding(crate::specs::Walks::misses))]
    pub(crate) fn misses(&self, l: Landing, known: &[PointOrder]) -> Option<PointOrder>
        requires { All (IsForced self.now) known.now }
        ensures sound { IfSome result (λ order. IsInstalledBefore self.now l
            → IsForced self.now order) }
        ensures exact { result ≡ walk.misses (said.given_of self.now) known.now l }
    {
        let _call = call_of(l.file)?;
        if l.until >= self.events.len() || !self.is_walked(&WalkAim::Misses(l), known) {
            return None;
        }
        Some(not_after(Point::Gone(l.file, l.slot), Point::Put(l.file)))
    }

    /// Returns a contradiction: by `installed` a file was installed before an event, and no call
    /// before the event may install it, whatever the slot.
    #[tactic(auto, unfolding(crate::specs::Walks::unknown))]
    pub(crate) fn unknown(&self, installed: &PointOrder, known: &[PointOrder]) -> Option<PointOrder>
        requires { All (IsForced self.now) known.now }
        ensures sound { IfSome result (IsForcedBy self.now installed.now) }
        ensures exact { result ≡ walk.unknown (said.given_of self.now) known.now installed.now }
    {
        let l = self.landing(installed, 0)?;
        let placed = self.lands(l, known)?;
        let gone = self.misses(l, known)?;
        self.joined(&placed, &gone)
    }
}
