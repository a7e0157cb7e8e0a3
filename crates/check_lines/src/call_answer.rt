//! Calls between submissions: the ring that each leaves and the line that it prints if no
//! allocation fails; and the line of a refused submission.
ghost use Rattle.std.specs.Prelude.{◌≡◌, ◌+◌, ◌^◌, ◌<◌, ◌≤◌};
ghost use Rattle.check_lines.specs.Words.{false, IfOk, OnOk, length, None, All, [], List, string_bytes, unwrap_or, list_any, option_to_list};
ghost use Rattle.check_lines.specs.Words.{MatchOption, MOST_ENTRIES, is_bad_entry, file_after, files_after, removed_by_number, removed_from, tag_at};
ghost use Rattle.check_lines.specs.Words.{tags_for, table_of_slots, ring_of_slots, ring_with_slots, HasClosed, ring_files_in_order, IsRing};
ghost use Rattle.check_lines.specs.Words.{FileEntry, fault_of, all_asked, instruction_of, refused_line, too_many_line};
ghost use Rattle.check_lines.specs.InRange.{AreInRange};
ghost use Rattle.fx_order.specs.Access.{with_file};
ghost use Rattle.fx_plain.specs.declared.table.TheConstants.{MOST_SLOTS};
ghost use Rattle.check_lines.specs.Calls.{HasEntries, IsLineOf, after_call, call_of};

use crate::call_head::{given, head_of};
use fx_base::{Catalogue, CloseList, Closed, Mark, NoMemory};
use fx_chain::{Request, check};
use fx_language::Command;
use fx_order::{RingSlots, Slots};
use fx_ring::tag_at;
use fx_script::{refused_line, result_line, too_many_line, with_closes};
use std::alloc::Global;

/// Returns `n` empty slots, all of them in the allocation range.
///
/// # Errors
/// `NoMemory` if an allocation fails.
pub(crate) fn empty_slots(alloc: Global, n: u32) -> Result<Slots, NoMemory>
    ensures { IfOk result (λ slots. table_of_slots slots
        ≡ record { size = n; range = (0, n); at = λ _. None }) }
{
    let at = vec![in alloc; None; n as usize]?;
    Ok(Slots { range: (0, n), at })
}

// Applies one number: -1 empties the slot, -2 leaves it as it is, and any other number opens that
// catalogue entry there. Returns the file that was removed.
fn apply_number(slots: &mut Slots, mark: Mark, tag: u64, slot: u32, number: i32) -> Option<Closed>
    requires slot { slot < length slots.old.at.items }
    requires good { is_bad_entry MOST_ENTRIES number ≡ false }
    ensures table { table_of_slots slots.new ≡ with_file (table_of_slots slots.old) slot
        (file_after mark tag number ((table_of_slots slots.old).at slot)) }
    ensures removed { option_to_list result
        ≡ removed_by_number number ((table_of_slots slots.old).at slot) }
{
    let was = slots.at[slot as usize];
    if number >= 0 {
        let entry = number as u8;
        slots.at[slot as usize] = Some(Closed { mark, entry, tag });
        return was;
    }
    if number < -1 {
        return None;
    }
    slots.at[slot as usize] = None;
    was
}

/// Applies the k-th list, from the slot `off` on, and returns the files that it removed, in order
/// of slot. Without tags, the tag of each new file is 0.
///
/// # Errors
/// `NoMemory` if an allocation fails.
pub(crate) fn apply_list(
    alloc: Global,
    slots: &mut Slots,
    k: u32,
    off: u32,
    list: &[i32],
    tags: Option<&[u64]>,
) -> Result<Vec<Closed>, NoMemory>
    requires slots { off + length list.now ≤ length slots.old.at.items }
    requires few { length slots.old.at.items < 2 ^ 31 }
    requires good { list_any (is_bad_entry MOST_ENTRIES) list.now ≡ false }
    ensures table { OnOk result (table_of_slots slots.new ≡ record (table_of_slots slots.old) {
      at = files_after k (table_of_slots slots.old).at off list.now
          (tags_for list.now tags.entry);
    }) }
    ensures removed { IfOk result (λ files.
        files.items ≡ removed_from (table_of_slots slots.old).at off list.now) }
    ensures in_range { OnOk result (AreInRange (table_of_slots slots.old).at
        → AreInRange (table_of_slots slots.new).at) }
{
    let mut removed = Vec::new(alloc);
    for (i, number) in list.iter().enumerate() {
        let place = i as u32;
        let mark = Mark::Registered { k, i: place };
        if let Some(file) = apply_number(slots, mark, tag_at(tags, i), off + place, *number) {
            removed.push(file)?;
        }
    }
    Ok(removed)
}

/// Returns the files at all slots, in order of slot.
///
/// # Errors
/// `NoMemory` if an allocation fails.
pub fn files_at(alloc: Global, slots: &Slots) -> Result<Vec<Closed>, NoMemory>
    ensures { IfOk result (λ files. files.items
        ≡ ring_files_in_order (table_of_slots slots.now).at (length slots.now.at.items)) }
{
    let mut files = Vec::new(alloc);
    for file in &slots.at {
        if let Some(file) = file {
            files.push(*file)?;
        }
    }
    Ok(files)
}

/// Returns a list of closes of these files, in order of mark. Each of them is of the catalogue.
///
/// # Errors
/// `NoMemory` if an allocation fails.
pub fn close_in_order(
    alloc: Global,
    catalogue: &Catalogue,
    files: &[Closed],
) -> Result<CloseList, NoMemory>
    requires entries { All (λ file. file.entry < length catalogue.now) files.now }
    requires few { length files.now < 2 ^ 32 }
    ensures { IfOk result (HasClosed files.now) }
{
    let mut closes = CloseList::with_room(alloc, files.len() as u32)?;
    for file in files {
        closes.close(catalogue.open(file.entry, file.mark, file.tag));
    }
    closes.sort();
    Ok(closes)
}

/// The ring that a call leaves, and what the call prints.
#[derive(Drop)]
pub struct CallAnswer {
    /// The ring after the call.
    pub ring: RingSlots,
    /// The line of the call, and those of the files that it closes.
    pub line: String,
}

/// Returns a copy of a ring's slots and counts.
///
/// # Errors
/// `NoMemory` if an allocation fails.
pub fn copy_of(alloc: Global, ring: &RingSlots) -> Result<RingSlots, NoMemory>
    ensures same { IfOk result (λ copy. (catalogue : List FileEntry)
        → ring_with_slots catalogue copy ≡ ring_with_slots catalogue ring.now) }
    ensures size { IfOk result (λ copy.
        length copy.slots.at.items ≡ length ring.now.slots.at.items) }
{
    let slots = ring.slots.copy(alloc)?;
    Ok(RingSlots {
        slots,
        submissions: ring.submissions,
        registrations: ring.registrations,
    })
}

// Makes a call that isn't refused. Returns the slots and the number of registrations that it
// leaves, and the files that it closes, in order of slot.
fn accepted(
    alloc: Global,
    catalogue: &Catalogue,
    ring: &RingSlots,
    command: &Command,
) -> Result<(Slots, u32, Vec<Closed>), NoMemory>
    requires few { length ring.now.slots.at.items ≤ MOST_SLOTS }
    requires accepted { (call_of (ring_with_slots catalogue.now ring.now)
        (instruction_of command.now)).refusal ≡ None }
    requires entries { HasEntries (instruction_of command.now) }
    ensures left { IfOk result (λ made.
        ring_of_slots catalogue.now made.0 ring.now.submissions made.1
        ≡ (call_of (ring_with_slots catalogue.now ring.now) (instruction_of command.now)).left) }
    ensures closed { IfOk result (λ made. made.2.items ≡ unwrap_or
        (call_of (ring_with_slots catalogue.now ring.now) (instruction_of command.now)).closed []) }
    ensures few { IfOk result (λ made. length made.0.at.items ≤ MOST_SLOTS) }
    ensures in_range { IfOk result (λ made. AreInRange (table_of_slots ring.now.slots).at
        → AreInRange (table_of_slots made.0).at) }
{
    let none = Vec::new(alloc);
    match command {
        Command::Sparse(n) => Ok((empty_slots(alloc, *n)?, ring.registrations, none)),
        Command::Register(list, tags) => {
            let k = ring.registrations + 1;
            let mut slots = empty_slots(alloc, list.len() as u32)?;
            let _none = apply_list(alloc, &mut slots, k, 0, list, given(tags))?;
            Ok((slots, k, none))
        }
        Command::Unregister => {
            let closed = files_at(alloc, &ring.slots)?;
            Ok((empty_slots(alloc, 0)?, ring.registrations, closed))
        }
        Command::Range(off, len) => {
            let mut slots = ring.slots.copy(alloc)?;
            slots.range = (*off, *len);
            Ok((slots, ring.registrations, none))
        }
        Command::Update(off, list, tags) => {
            let k = ring.registrations + 1;
            let mut slots = ring.slots.copy(alloc)?;
            let closed = apply_list(alloc, &mut slots, k, *off, list, given(tags))?;
            Ok((slots, k, closed))
        }
        Command::Submit(_) => Ok((ring.slots.copy(alloc)?, ring.registrations, none)),
    }
}

// The line of a refused submission: that of its first fault, or else that there were too many.
fn refused_submission(alloc: Global, requests: &[Request]) -> Result<String, NoMemory>
    ensures { IfOk result (λ line. MatchOption (fault_of (all_asked requests.now))
        (string_bytes line ≡ too_many_line) (λ fault. string_bytes line ≡ refused_line fault)) }
{
    match check(requests) {
        Err(fault) => refused_line(alloc, fault),
        Ok(_) => too_many_line(alloc),
    }
}

/// Returns the ring that a call between submissions leaves, and what the call prints, if the call
/// finds memory. A refused call leaves the ring as it was. A submission is taken as refused: for
/// its first fault, or else because there are too many.
///
/// # Errors
/// `NoMemory` if an allocation fails.
pub fn call(
    alloc: Global,
    catalogue: &Catalogue,
    ring: &RingSlots,
    command: &Command,
) -> Result<CallAnswer, NoMemory>
    requires few { length ring.now.slots.at.items ≤ MOST_SLOTS }
    requires ring { IsRing (ring_with_slots catalogue.now ring.now) }
    ensures value { IfOk result (λ called. ring_with_slots catalogue.now called.ring
        ≡ after_call (ring_with_slots catalogue.now ring.now) (instruction_of command.now)) }
    ensures line { IfOk result (λ called. IsLineOf (ring_with_slots catalogue.now ring.now)
        (instruction_of command.now) (string_bytes called.line)) }
    ensures few { IfOk result (λ called. length called.ring.slots.at.items ≤ MOST_SLOTS) }
    ensures in_range { IfOk result (λ called. AreInRange (table_of_slots ring.now.slots).at
        → AreInRange (table_of_slots called.ring.slots).at) }
{
    if let Command::Submit(requests) = command {
        let ring = copy_of(alloc, ring)?;
        let line = refused_submission(alloc, requests)?;
        return Ok(CallAnswer { ring, line });
    }
    let (word, refusal, res) = head_of(catalogue, ring, command);
    if let Some(errno) = refusal {
        let ring = copy_of(alloc, ring)?;
        let line = result_line(alloc, word, -i64::from(errno.code()))?;
        return Ok(CallAnswer { ring, line });
    }
    let (slots, registrations, closed) = accepted(alloc, catalogue, ring, command)?;
    let closes = close_in_order(alloc, catalogue, &closed)?;
    let first = result_line(alloc, word, res as i64)?;
    let line = with_closes(alloc, first.as_str(), catalogue, &closes)?;
    let ring = RingSlots {
        slots,
        submissions: ring.submissions,
        registrations,
    };
    Ok(CallAnswer { ring, line })
}
