//! The rule of an access that finds a file at its slot: each other file isn't there.
ghost use Rattle.check_certificate.specs.Words.{All, IfSome, IsTrue, list_any};
ghost use Rattle.std.specs.Prelude.{◌≡◌};
ghost use Rattle.check_certificate.specs.Forced.{IsForced};
ghost use Rattle.check_certificate.specs.Absent.{FindsFile, InstallsNone, IsAbsent, IsEmptyAtFirst, IsOnlyFile};
ghost use Rattle.check_certificate.specs.declared.beginning.LogBeginning.{LogBeginning as In};
ghost use Rattle.check_certificate.specs.Holds as hold;
ghost use Rattle.check_certificate.specs.Said as said;
ghost use Rattle.check_certificate.specs.Walks as walk;

use crate::absence::{is_gone, is_later};
use crate::beginning::LogBeginning;
use crate::certificate::{Holding, OnlyFile, Point, PointOrder};
use crate::evidence::Evidence;
use crate::rules::{not_after, ordered};
use crate::walk::{MemberAccess, WalkAim};
use fx_base::Closed as File;
use fx_chain::Intent;

// Checks whether an order shows that a file isn't at the slot just before the access.
fn shows_absent(order: &PointOrder, h: &Holding, file: File) -> bool
    ensures sound { IsTrue result → (b : In) → IsForced b order.now → IsAbsent b h.now file }
    ensures exact { result ≡ hold.shows_absent order.now h.now file }
{
    is_later(order, h, file) || is_gone(order, h, file)
}

// Checks whether one of the orders shows it.
fn is_known_absent(known: &[PointOrder], h: &Holding, file: File) -> bool
    ensures sound { IsTrue result → (b : In) → All (IsForced b) known.now
        → IsAbsent b h.now file }
    ensures exact { result ≡ list_any (λ order. hold.shows_absent order h.now file) known.now }
{
    for order in known {
        if shows_absent(order, h, file) {
            return true;
        }
    }
    false
}

// Checks whether a file is the one that the access finds.
fn is_held(found: OnlyFile, file: File) -> bool
    ensures sound { IsTrue result → IsOnlyFile found file }
    ensures exact { result ≡ hold.is_held found file }
{
    match found {
        OnlyFile::Nothing => false,
        OnlyFile::PutBefore(own) => own == file,
        OnlyFile::GoneAfter(own) => own == file,
    }
}

impl LogBeginning<'_> {
    // Checks whether an access with this evidence finds a file at the slot.
    fn finds_file(&self, evidence: Evidence, slot: u32) -> bool
        ensures sound { IsTrue result → FindsFile self.now evidence slot }
        ensures exact { result ≡ hold.finds_file (said.given_of self.now) evidence slot }
    {
        match evidence {
            Evidence::Removes(own) => own == slot,
            Evidence::Sees(own) => own == slot,
            Evidence::Full => {
                (slot as usize) < self.slots.at.len()
                    && self.slots.range.0 <= slot
                    && (slot as usize) < self.slots.range.0 as usize + self.slots.range.1 as usize
            }
            _ => false,
        }
    }

    // Checks whether a slot is empty before the log.
    fn is_empty_at_first(&self, slot: u32) -> bool
        ensures sound { IsTrue result → IsEmptyAtFirst self.now slot }
        ensures exact { result ≡ hold.is_empty_at_first (said.given_of self.now) slot }
    {
        match self.slots.at.get(slot as usize) {
            Some(file) => file.is_none(),
            None => true,
        }
    }

    // Checks whether a file of an access that a member of a call intends is absent.
    #[tactic(auto, unfolding(crate::specs::Holds::is_absent))]
    fn is_absent(&self, h: &Holding, known: &[PointOrder], by: MemberAccess, file: File) -> bool
        requires { All (IsForced self.now) known.now }
        ensures sound { IsTrue result → (IsOnlyFile h.now.found file → ⊥)
            → IsAbsent self.now h.now file }
        ensures exact { result
            ≡ hold.is_absent (said.given_of self.now) h.now known.now by file }
    {
        if is_held(h.found, file) || is_known_absent(known, h, file) {
            return true;
        }
        if self.other_read(h, file).is_some() {
            return true;
        }
        match self.absence(h, by, file) {
            Some(order) => shows_absent(&order, h, file),
            None => false,
        }
    }

    /// Checks whether what a member of a call intends installs no file at the slot but absent ones.
    pub(crate) fn installs_none(
        &self,
        h: &Holding,
        known: &[PointOrder],
        by: MemberAccess,
        intent: Intent,
    ) -> bool
        requires { All (IsForced self.now) known.now }
        ensures sound { IsTrue result → InstallsNone self.now h.now intent }
        ensures exact { result
            ≡ hold.installs_none (said.given_of self.now) h.now known.now by intent }
    {
        match intent {
            Intent::Put(slot, file) => { slot != h.slot || self.is_absent(h, known, by, file) }
            Intent::Allocate(file) => { self.is_absent(h, known, by, file) }
            _ => true,
        }
    }

    /// Returns the order of an access that finds a file at a slot, and the installation or the
    /// removal of the only file that may be there; a contradiction if none may.
    #[tactic(auto, unfolding(crate::specs::Walks::holds))]
    pub(crate) fn holds(&self, h: &Holding, known: &[PointOrder]) -> Option<PointOrder>
        requires { All (IsForced self.now) known.now }
        ensures sound { IfSome result (IsForced self.now) }
        ensures exact { result ≡ walk.holds (said.given_of self.now) known.now h.now }
    {
        let evidence = self.made(h.call, h.answer, h.access)?;
        if !self.finds_file(evidence, h.slot) || !self.is_empty_at_first(h.slot) {
            return None;
        }
        if !self.is_walked(&WalkAim::Finds(*h), known) {
            return None;
        }
        let access = Point::Access(h.answer, h.access);
        match h.found {
            OnlyFile::Nothing => Some(ordered(access, access)),
            OnlyFile::PutBefore(file) => Some(ordered(Point::Put(file), access)),
            OnlyFile::GoneAfter(file) => Some(not_after(access, Point::Gone(file, h.slot))),
        }
    }
}
