//! Requests, as io_uring_enter(2) describes them: their kinds, the files that each kind may install
//! and close, and the errors of requests that are refused before they reach the table.
ghost use Rattle.std.specs.Prelude.{◌≡◌, ◌<◌, None, length, true, ◌+◌, ◌≤◌, false, ℕ, Some};
ghost use Rattle.std.specs.Prelude.{◌↔◌, IfNone, IfSome, IsTrue, List, Option, drop, take};
ghost use Rattle.fx_base.specs.Catalogue.{FileEntry, IsCatalogue};
ghost use Rattle.fx_base.specs.declared.errno.Errno.TheVariants.{ENOENT};
ghost use Rattle.fx_chain.specs.Completed.{completed_of};
ghost use Rattle.fx_chain.specs.Explains.{has_failed, severs};
ghost use Rattle.fx_chain.specs.Faults.{has_bad_flags, is_long_read, is_long_update};
ghost use Rattle.fx_chain.specs.Intents.{IsOpened, answer_at_table, installs_of, part_read};
ghost use Rattle.fx_chain.specs.Intents.{opened_by, weight_of};
ghost use Rattle.fx_chain.specs.MayAnswer.{may_answer};
ghost use Rattle.fx_chain.specs.Operation.{asked_of, is_fixed, is_link, operation_of};
ghost use Rattle.fx_chain.specs.Refusal.{refusal_of, slot_refusal, target_refusal, list_refusal};
ghost use Rattle.fx_chain.specs.declared.completion.Place.{Place};
ghost use Rattle.fx_chain.specs.declared.intent.Finding.{Finding};

use crate::completion::Completion;
use crate::entries::{has_bad_entry, installing};
use crate::flags::SqeFlags;
use bitflags::Flags;
use fx_base::{Catalogue, Errno, MOST_ENTRIES};

/// The greatest number of bytes of a read.
pub const LONGEST_READ: u32 = 4096;

/// The greatest number of entries of an update.
pub const LONGEST_UPDATE: usize = 16;

/// The target of an open's file (io_uring_prep_openat(3), "file_index").
#[derive(Clone, Copy, Debug, PartialEq, Eq)]
pub enum Target {
    /// The slot with this number, from 0.
    Slot(u32),
    /// Any empty slot of the allocation range.
    Any,
}

/// The operation of a request.
#[derive(Debug, Drop)]
pub enum Op {
    /// Opens the catalogue entry of this name (io_uring_prep_openat(3)).
    Open {
        /// The name.
        name: String,
        /// The target of the file.
        target: Target,
    },
    /// Reads from the file at a slot (io_uring_enter(2), "IORING_OP_READ").
    Read {
        /// The slot, from 0.
        slot: u32,
        /// The first byte, from 0.
        off: u32,
        /// The number of bytes, at most 4,096.
        len: u32,
    },
    /// Empties a slot (io_uring_prep_close(3)).
    Close {
        /// The slot, from 0.
        slot: u32,
    },
    /// Changes the slots from `off` on, each by its number in the list
    /// (io_uring_prep_files_update(3)): -1 empties the slot, -2 leaves it as it is, and any other
    /// number installs the catalogue entry of that number.
    Update {
        /// The slot of the first entry, from 0.
        off: u32,
        /// The entries, at most 16.
        list: Vec<i32>,
    },
}

/// A request of a submission.
#[derive(Debug, Drop)]
pub struct Request {
    /// The operation.
    pub op: Op,
    /// The flags.
    pub flags: SqeFlags,
}

impl Request {
    /// Returns the number of files that the request installs: 1 for an open, the number of entries
    /// that are 0 or more for an update, otherwise 0. Each uses a file number of the table.
    pub fn installs(&self) -> usize
        ensures { result ≡ installs_of (operation_of self.now.op) }
    {
        match &self.op {
            Op::Open { name: _, target: _ } => 1,
            Op::Update { off: _, list } => installing(list.as_slice()),
            _ => 0,
        }
    }

    /// Returns the greatest number of files that the request may close: the length of the list for
    /// an update, one for every other request. Each uses one place of the room in a list of closes.
    pub fn weight(&self) -> usize
        ensures { result ≡ weight_of (operation_of self.now.op) }
    {
        match &self.op {
            Op::Update { off: _, list } => list.len(),
            _ => 1,
        }
    }

    /// Checks whether the next request starts only after this one has completed (io_uring_enter(2),
    /// "IOSQE_IO_LINK", "IOSQE_IO_HARDLINK").
    pub fn links(&self) -> bool
        ensures { result ≡ is_link self.now.flags }
    {
        self.flags.contains(SqeFlags::IO_LINK) || self.flags.contains(SqeFlags::IO_HARDLINK)
    }

    /// Checks whether the completion severs the request's chain: the request failed, or is a read
    /// that returned fewer bytes than it asked for, and it has no IO_HARDLINK (io_uring_enter(2),
    /// "IOSQE_IO_LINK", "IOSQE_IO_HARDLINK").
    pub fn severs(&self, completion: &Completion) -> bool
        ensures { result ≡ severs (asked_of self.now) (completed_of completion.now) }
    {
        !self.flags.contains(SqeFlags::IO_HARDLINK) && self.has_failed(completion)
    }

    // Checks whether the completion is a failure: an error, or fewer bytes than a read asked for.
    fn has_failed(&self, completion: &Completion) -> bool
        ensures { result ≡ has_failed (operation_of self.now.op) (completed_of completion.now) }
    {
        if completion.res < 0 {
            return true;
        }
        match self.op {
            Op::Read { len, .. } => (completion.res as i64) < len as i64,
            _ => false,
        }
    }

    /// Checks whether the request may have this answer by its result, whatever it finds at the
    /// table: unless it is refused or canceled, or finds no memory.
    pub fn may_answer(&self, c: &Completion) -> bool
        ensures exact { result ≡ may_answer (operation_of self.now.op) (completed_of c.now) }
        ensures all { (catalogue : List FileEntry) (place : Place) (found : Option Finding)
            → completed_of c.now ≡ answer_at_table catalogue place (operation_of self.now.op) found
            → IsTrue result }
    {
        fits(&self.op, c)
    }

    /// Returns the part of a file's bytes that the request reads, none unless it is a read.
    pub fn part_read<'b>(&self, bytes: &'b [u8]) -> &'b [u8]
        ensures { result.now ≡ part_read (operation_of self.now.op) bytes.now }
    {
        match self.op {
            Op::Read { slot: _, off, len } => part(bytes, off as usize, len as usize),
            _ => &bytes[..0],
        }
    }

    // Checks whether it is a read without FIXED_FILE, or another request with it.
    pub(crate) fn has_bad_flags(&self) -> bool
        ensures { result ≡ has_bad_flags (operation_of self.now.op) (is_fixed self.now.flags) }
    {
        let fixed = self.flags.contains(SqeFlags::FIXED_FILE);
        match self.op {
            Op::Read { .. } => !fixed,
            _ => fixed,
        }
    }

    // Checks whether it is a read of more than 4,096 bytes.
    pub(crate) fn is_long_read(&self) -> bool
        ensures { result ≡ is_long_read (operation_of self.now.op) }
    {
        match self.op {
            Op::Read { len, .. } => len > LONGEST_READ,
            _ => false,
        }
    }

    // Checks whether it is an update of more than 16 entries.
    pub(crate) fn is_long_update(&self) -> bool
        ensures { result ≡ is_long_update (operation_of self.now.op) }
    {
        match &self.op {
            Op::Update { off: _, list } => list.len() > LONGEST_UPDATE,
            _ => false,
        }
    }

    /// Returns the catalogue entry that the request opens, 0 unless it is an open, or `None` if no
    /// entry has the name.
    pub fn opened(&self, catalogue: &Catalogue) -> Option<u8>
        ensures some { IfSome result (IsOpened catalogue.now (operation_of self.now.op)) }
        ensures none { IfNone result ((size : ℕ)
            → refusal_of catalogue.now size (operation_of self.now.op) ≡ Some ENOENT) }
        ensures exact { IsCatalogue catalogue.now
            → result ≡ opened_by catalogue.now (operation_of self.now.op) }
    {
        match &self.op {
            Op::Open { name, target: _ } => catalogue.find(name),
            _ => Some(0),
        }
    }

    /// Checks whether this is a catalogue entry that the request opens, or 0 unless it is an open.
    pub fn is_opened(&self, catalogue: &Catalogue, entry: u8) -> bool
        ensures { IsTrue result ↔ IsOpened catalogue.now (operation_of self.now.op) entry }
    {
        match &self.op {
            Op::Open { name, target: _ } => {
                u32::from(entry) < catalogue.len() && catalogue.name_of(entry) == name.as_str()
            }
            _ => entry == 0,
        }
    }
}

// Checks whether a request may have this answer at the table, by its result.
fn fits(op: &Op, c: &Completion) -> bool
    ensures { result ≡ may_answer (operation_of op.now) (completed_of c.now) }
{
    match op {
        Op::Open {
            name: _,
            target: Target::Slot(_),
        } => c.res == 0,
        Op::Open {
            name: _,
            target: Target::Any,
        } => c.res >= 0 || c.is_error(Errno::ENFILE),
        Op::Read { .. } => {
            (c.res >= 0 && c.res as usize == c.got.len()) || c.is_error(Errno::EBADF)
        }
        Op::Close { slot: _ } => c.res == 0 || c.is_error(Errno::EBADF),
        Op::Update { off: _, list } => c.res >= 0 && c.res as usize == list.len(),
    }
}

// Returns the bytes from `off` on, at most `len` of them.
fn part(bytes: &[u8], off: usize, len: usize) -> &[u8]
    ensures { result.now ≡ take len (drop off bytes.now) }
{
    if off >= bytes.len() {
        return &bytes[..0];
    }
    let rest = &bytes[off..];
    if len < rest.len() { &rest[..len] } else { rest }
}

// Returns the error of an open at a slot, or of a close.
fn slot_refusal(size: u32, slot: u32) -> Option<Errno>
    ensures { result ≡ slot_refusal size slot }
{
    if size == 0 {
        return Some(Errno::ENXIO);
    }
    if slot >= size {
        return Some(Errno::EINVAL);
    }
    None
}

// Returns the error of an open of a catalogue entry.
fn target_refusal(size: u32, target: Target) -> Option<Errno>
    ensures { result ≡ target_refusal size target }
{
    match target {
        Target::Slot(slot) => slot_refusal(size, slot),
        Target::Any => (size == 0).then_some(Errno::ENFILE),
    }
}

// Returns the error of an update.
fn list_refusal(entries: u32, size: u32, off: u32, list: &[i32]) -> Option<Errno>
    ensures { result ≡ list_refusal entries size off list.now }
{
    if size == 0 {
        return Some(Errno::ENXIO);
    }
    if list.is_empty() || off as u64 + list.len() as u64 > size as u64 {
        return Some(Errno::EINVAL);
    }
    if has_bad_entry(entries, list) {
        return Some(Errno::EBADF);
    }
    None
}

// Returns the error of a request at a catalogue of `entries` entries. If it is an open, an entry
// has its name.
#[tactic(auto, using(crate::proofs::Intents::has_its_name))]
pub(crate) fn refusal_of_opened(entries: u32, size: u32, request: &Request) -> Option<Errno>
    ensures { (catalogue : List FileEntry) (entry : ℕ) → length catalogue ≡ entries
        → IsOpened catalogue (operation_of request.now.op) entry
        → result ≡ refusal_of catalogue size (operation_of request.now.op) }
{
    match &request.op {
        Op::Open { name: _, target } => target_refusal(size, *target),
        Op::Read { slot, .. } => (*slot >= size).then_some(Errno::EBADF),
        Op::Close { slot } => slot_refusal(size, *slot),
        Op::Update { off, list } => list_refusal(entries, size, *off, list),
    }
}

/// Returns the error of a request that a table of `size` slots refuses whatever is at its slots, or
/// `None` if it doesn't (a read may still fail with ENOMEM). The first error that applies counts
/// (io_uring_prep_openat(3), io_uring_enter(2), io_uring_prep_close(3),
/// io_uring_register_files(3)): ENOENT for an open of a name that no entry has; ENFILE for an open
/// at any slot, and ENXIO for another open, a close or an update, if there are no slots; EINVAL for
/// a slot past the end of the table, or an update whose list is empty or passes the end; EBADF for
/// a read past the end, or an update with a bad entry ([`has_bad_entry`]).
pub fn refusal_of(catalogue: &Catalogue, size: u32, request: &Request) -> Option<Errno>
    ensures refusal { result ≡ refusal_of catalogue.now size (operation_of request.now.op) }
    ensures entries { length catalogue.now ≤ MOST_ENTRIES }
{
    let entries = catalogue.len();
    if request.opened(catalogue).is_none() {
        return Some(Errno::ENOENT);
    }
    refusal_of_opened(entries, size, request)
}
