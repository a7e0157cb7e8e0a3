//! The entries of an update's list.
ghost use Rattle.std.specs.List.{list_any};
ghost use Rattle.std.specs.Prelude.{◌≡◌, ◌<◌, ◌^◌, None, length, ◌+◌, ◌≤◌, false, IfOk, Some};
ghost use Rattle.std.specs.Prelude.{Option, filter, int_le, negsuc, slice_get, pos};
ghost use Rattle.fx_chain.specs.Intents.{list_intents, positions_from};
ghost use Rattle.fx_chain.specs.Refusal.{is_bad_entry};

use crate::completion::Place;
use crate::intent::Intent;
use fx_base::{MOST_ENTRIES, NoMemory};
use std::alloc::Global;

// Returns the number of entries that install a file.
pub(crate) fn installing(list: &[i32]) -> usize
    ensures { result ≡ length (filter (λ entry. int_le (pos 0) entry) list.now) }
{
    list.iter().filter(|entry| **entry >= 0).count()
}

// Checks whether an entry of a list isn't a skip.
fn is_done(entry: i32) -> bool
    ensures { result ≡ int_le (negsuc 0) entry }
{
    entry >= -1
}

// Returns the number of entries of a list that aren't skips.
pub(crate) fn entries_done(list: &[i32]) -> usize
    ensures { result ≡ length (filter (λ entry. int_le (negsuc 0) entry) list.now) }
{
    list.iter().filter(|entry| **entry >= -1).count()
}

// Returns the position, from 0, of each entry of a list that isn't a skip.
pub(crate) fn positions_in(alloc: Global, list: &[i32]) -> Result<Vec<Option<usize>>, NoMemory>
    ensures { IfOk result (λ positions. positions.items ≡ positions_from 0 list.now) }
{
    let mut positions = Vec::new(alloc);
    for (i, entry) in list.iter().enumerate() {
        if *entry >= -1 {
            positions.push(Some(i))?;
        }
    }
    Ok(positions)
}

// Returns what the entries of an update intend after `made` accesses, or `None` if they intend no
// other. `at` is the first entry's position in the whole list, and its slot.
pub(crate) fn list_intent(
    place: Place,
    entries: u32,
    at: (u32, u32),
    list: &[i32],
    made: usize,
) -> Option<Intent>
    requires few { entries ≤ MOST_ENTRIES }
    requires in_list { at.0 + length list.now < 2 ^ 32 }
    requires slot { at.1 + length list.now < 2 ^ 32 }
    requires good { list_any (is_bad_entry entries) list.now ≡ false }
    ensures { result ≡ slice_get (list_intents place at.0 at.1 list.now) made }
{
    let [entry, others @ ..] = list else {
        return None;
    };
    let (in_list, slot) = at;
    let next = (in_list + 1, slot + 1);
    if !is_done(*entry) {
        return list_intent(place, entries, next, others, made);
    }
    if made > 0 {
        return list_intent(place, entries, next, others, made - 1);
    }
    if *entry >= 0 {
        return Some(Intent::Put(slot, place.installed(in_list, *entry as u8)));
    }
    Some(Intent::Clear(slot))
}

// Checks whether an entry of an update is below -2, or past a catalogue of `entries` entries.
fn is_bad_entry(entries: u32, entry: i32) -> bool
    ensures { result ≡ is_bad_entry entries entry }
{
    if entry < 0 {
        return entry < -2;
    }
    entry as u32 >= entries
}

/// Checks whether the list of an update has an entry that is below -2, or past a catalogue of
/// `entries` entries (io_uring_register(2), "IORING_REGISTER_FILES_UPDATE").
pub fn has_bad_entry(entries: u32, list: &[i32]) -> bool
    ensures { result ≡ list_any (is_bad_entry entries) list.now }
{
    list.iter().any(|entry| is_bad_entry(entries, *entry))
}
