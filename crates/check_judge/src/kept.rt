//! Checks whether slots and counts, read from anywhere, are those of a ring.
ghost use Rattle.std.specs.Prelude.{◌≡◌, ◌<◌, ◌≤◌, ◌↔◌, ℕ, IsTrue, List, None, Some, length, slice_index_or};
ghost use Rattle.check_judge.specs.Words.{FileEntry, Closed as File, IsFileInRange, AreFiles, IsMarkInRange, ring_with_slots, HasCounted};
ghost use Rattle.check_judge.specs.Kept.{IsRingKept, IsOfRing};

use fx_base::{Catalogue, Closed, Mark};
use fx_order::RingSlots;
use fx_plain::MOST_SLOTS;
use fx_ring::{MOST_REGISTRATIONS, MOST_SUBMISSIONS};

// Checks whether a ring has counted the registration or the submission of a mark.
fn is_counted(ring: &RingSlots, mark: Mark) -> bool
    ensures counted { (catalogue : List FileEntry)
        → IsTrue result ↔ HasCounted (ring_with_slots catalogue ring.now) mark }
    ensures range { IsMarkInRange mark }
{
    match mark {
        Mark::Registered { k, i: _ } => k <= ring.registrations,
        Mark::Submitted {
            submission,
            chain: _,
            member: _,
            entry: _,
        } => submission <= ring.submissions,
    }
}

// Checks whether a ring with this catalogue may have the file at a slot.
fn is_of_ring(catalogue: &Catalogue, ring: &RingSlots, file: Closed) -> bool
    ensures of_ring { IsTrue result ↔ IsOfRing (ring_with_slots catalogue.now ring.now) file }
    ensures range { IsFileInRange file }
{
    if u32::from(file.entry) >= catalogue.len() {
        return false;
    }
    is_counted(ring, file.mark)
}

// Checks whether a ring with this catalogue may have each of the files at slots.
fn are_of_ring(catalogue: &Catalogue, ring: &RingSlots, at: &[Option<Closed>]) -> bool
    ensures of_ring { IsTrue result ↔ ((slot : ℕ) (file : File)
        → slice_index_or at.now slot None ≡ Some file
        → IsOfRing (ring_with_slots catalogue.now ring.now) file) }
    ensures range { IsTrue result → (slot : ℕ) (file : File)
        → slice_index_or at.now slot None ≡ Some file → IsFileInRange file }
{
    for slot in 0..at.len() {
        if let Some(file) = at[slot] {
            if !is_of_ring(catalogue, ring, file) {
                return false;
            }
        }
    }
    true
}

// Checks whether none of the first `count` slots has a file with the mark.
fn is_new(at: &[Option<Closed>], count: usize, mark: Mark) -> bool
    requires { count ≤ length at.now }
    ensures { IsTrue result ↔ ((slot : ℕ) (file : File) → slot < count
        → slice_index_or at.now slot None ≡ Some file → file.mark ≡ mark → ⊥) }
{
    for slot in 0..count {
        if let Some(file) = at[slot] {
            if file.mark == mark {
                return false;
            }
        }
    }
    true
}

// Checks whether no two slots have files with one mark.
fn are_apart(at: &[Option<Closed>]) -> bool
    ensures { IsTrue result ↔ ((slot other : ℕ) (file same : File)
        → slice_index_or at.now slot None ≡ Some file
        → slice_index_or at.now other None ≡ Some same → file.mark ≡ same.mark → slot ≡ other) }
{
    for slot in 0..at.len() {
        if let Some(file) = at[slot] {
            if !is_new(at, slot, file.mark) {
                return false;
            }
        }
    }
    true
}

/// Checks whether slots and counts are those of a ring with the catalogue of a script.
pub(crate) fn is_kept(catalogue: &Catalogue, ring: &RingSlots) -> bool
    ensures { AreFiles catalogue.now → IsTrue result ↔ IsRingKept catalogue.now ring.now }
{
    if ring.slots.at.len() > MOST_SLOTS as usize {
        return false;
    }
    if ring.submissions > MOST_SUBMISSIONS || ring.registrations > MOST_REGISTRATIONS {
        return false;
    }
    if !are_of_ring(catalogue, ring, &ring.slots.at) {
        return false;
    }
    are_apart(&ring.slots.at)
}
