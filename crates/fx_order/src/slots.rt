//! A table, as an order of accesses sees it.
ghost use Rattle.fx_order.specs.Words.{ℕ, IfOk, IsTrue, IsSome, None, length, slice_index_or};
ghost use Rattle.std.specs.Prelude.{◌≡◌, ◌+◌, ◌<◌, ◌≤◌, ◌↔◌};
ghost use Rattle.fx_order.specs.Access.{Permits, table_with, with_file};
ghost use Rattle.fx_order.specs.Slots.{IsFoundAt, table_of_slots};

use crate::access::Access;
use fx_base::{Closed, NoMemory};
use std::alloc::Global;

/// The files of a table by slot, and its allocation range.
#[derive(Debug, Drop)]
pub struct Slots {
    /// The first slot of the allocation range, and its number of slots.
    pub range: (u32, u32),
    /// The file at each slot, or `None`.
    pub at: Vec<Option<Closed>>,
}

// Checks whether this is the file at a slot, or `None` for an empty slot.
fn is_at(at: &[Option<Closed>], slot: u32, found: Option<Closed>) -> bool
    ensures { IsTrue result ↔ IsFoundAt at.now slot found }
{
    match at.get(slot as usize) {
        Some(file) => *file == found,
        None => false,
    }
}

// Checks whether each slot of a range has a file.
fn is_full(at: &[Option<Closed>], range: (u32, u32)) -> bool
    ensures { IsTrue result ↔ ((slot : ℕ) → slot < length at.now → (range.0 ≤ slot)
        × (slot < range.0 + range.1) → IsSome (slice_index_or at.now slot None)) }
{
    for slot in 0..at.len() {
        let inside = range.0 as usize <= slot && slot < range.0 as usize + range.1 as usize;
        if inside && at[slot].is_none() {
            return false;
        }
    }
    true
}

impl Slots {
    /// Returns a copy of the table, with the same files and the same allocation range.
    ///
    /// # Errors
    /// `NoMemory` if the allocation for the list fails.
    pub fn copy(&self, alloc: Global) -> Result<Slots, NoMemory>
        ensures { IfOk result (λ copy. table_of_slots copy ≡ table_of_slots self.now) }
    {
        let at = Vec::from_slice(alloc, &self.at)?;
        Ok(Slots {
            range: self.range,
            at,
        })
    }

    /// Checks whether both tables have the same files at the same slots, and the same allocation
    /// range.
    pub fn is_same(&self, other: &Slots) -> bool
        ensures same { IsTrue result → table_of_slots self.now ≡ table_of_slots other.now }
        ensures all { self.now.range ≡ other.now.range → self.now.at.items ≡ other.now.at.items
            → IsTrue result }
    {
        self.range == other.range && self.at == other.at
    }

    /// Checks whether an access is permitted here.
    pub fn permits(&self, access: &Access) -> bool
        ensures { IsTrue result ↔ Permits (table_of_slots self.now) access.now }
    {
        match access {
            Access::Looks(slot, found) => is_at(&self.at, *slot, *found),
            Access::Puts(slot, _, removed) => is_at(&self.at, *slot, *removed),
            Access::Clears(slot, removed) => is_at(&self.at, *slot, *removed),
            Access::Takes(slot, removed) => is_at(&self.at, *slot, *removed),
            Access::Allocates(slot, _) => {
                let (first, len) = self.range;
                is_at(&self.at, *slot, None)
                    && first <= *slot
                    && (*slot as u64) < first as u64 + len as u64
            }
            Access::FindsFull => is_full(&self.at, self.range),
        }
    }

    // Writes the file at a slot, or `None`.
    fn write(&mut self, slot: u32, file: Option<Closed>)
        requires { slot < length self.old.at.items }
        ensures { table_of_slots self.new ≡ with_file (table_of_slots self.old) slot file }
    {
        self.at[slot as usize] = file;
    }

    /// Makes an access. Requires that it is permitted here ([`Slots::permits`]).
    pub fn make(&mut self, access: &Access)
        requires { Permits (table_of_slots self.old) access.now }
        ensures { table_of_slots self.new ≡ table_with (table_of_slots self.old) access.now }
    {
        match access {
            Access::Looks(_, _) => {}
            Access::Puts(slot, file, _) => self.write(*slot, Some(*file)),
            Access::Clears(slot, _) => self.write(*slot, None),
            Access::Takes(slot, _) => self.write(*slot, None),
            Access::Allocates(slot, file) => self.write(*slot, Some(*file)),
            Access::FindsFull => {}
        }
    }
}
