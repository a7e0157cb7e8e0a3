//! The accesses that each kind of request intends at the table, each before it is known what it
//! finds: how many, in what order, at which slots; and the answers by what they found, if no
//! allocation fails.
ghost use Rattle.std.specs.Prelude.{◌≡◌, ◌<◌, ◌^◌, None, length, ◌+◌, ◌≤◌, false, ℕ, IfOk};
ghost use Rattle.std.specs.Prelude.{Some, ◌↔◌, IfSome, IsTrue, List, OnOk, Option, slice_get};
ghost use Rattle.fx_base.specs.Catalogue.{FileEntry};
ghost use Rattle.fx_chain.specs.Accepted.{IsWithinLimits};
ghost use Rattle.fx_chain.specs.Completed.{completed_of};
ghost use Rattle.fx_chain.specs.Intents.{answer_of, close_answer, open_answer, read_answer};
ghost use Rattle.fx_chain.specs.Intents.{DependsOnFindings, InstallsAt, IsIntent, MayReach};
ghost use Rattle.fx_chain.specs.Intents.{answer_at_table, bytes_asked, bytes_read, count_of};
ghost use Rattle.fx_chain.specs.Intents.{intent_by, intents_of, is_read, open_intent, positions_of};
ghost use Rattle.fx_chain.specs.Operation.{asked_of, operation_of};
ghost use Rattle.fx_chain.specs.Refusal.{refusal_of};
ghost use Rattle.fx_chain.specs.declared.completion.Place.{Place as In};
ghost use Rattle.fx_chain.specs.declared.intent.Finding.{Finding as What};
ghost use Rattle.fx_chain.specs.declared.intent.Finding.TheVariants.{Free};

use crate::completion::{Completion, Place};
use crate::entries::{entries_done, list_intent, positions_in};
use crate::request::{Op, Request, Target, refusal_of, refusal_of_opened};
use fx_base::{Catalogue, Closed, Errno, NoMemory};
use std::alloc::Global;

/// An access that a request intends, before it is known what it finds.
#[derive(Clone, Copy, Debug)]
pub enum Intent {
    /// Looks at a slot.
    Look(u32),
    /// Installs a file at a slot.
    Put(u32, Closed),
    /// Empties a slot for an update.
    Clear(u32),
    /// Empties a slot for a close.
    Take(u32),
    /// Installs a file at any empty slot of the allocation range.
    Allocate(Closed),
}

/// The finding of an access.
#[derive(Clone, Copy, Debug)]
pub enum Finding {
    /// The file at its slot, or `None` if the slot was empty.
    At(Option<Closed>),
    /// An empty slot of the allocation range, by its number.
    Free(u32),
    /// A file at every slot of the allocation range.
    Full,
}

impl Request {
    /// Returns the number of accesses that the request makes if it isn't refused or canceled and no
    /// allocation fails: 1, or for an update the number of its entries that aren't -2.
    #[tactic(auto, using(crate::proofs::Intents::length_positions))]
    pub fn accesses(&self) -> usize
        ensures { result ≡ length (positions_of (operation_of self.now.op)) }
    {
        match &self.op {
            Op::Update { off: _, list } => entries_done(list),
            _ => 1,
        }
    }

    /// Returns for each of these accesses, in order, its position in the list of an update, from 0,
    /// or `None` for another request.
    ///
    /// # Errors
    /// `NoMemory` if an allocation fails.
    pub fn positions(&self, alloc: Global) -> Result<Vec<Option<usize>>, NoMemory>
        ensures { IfOk result (λ positions.
            positions.items ≡ positions_of (operation_of self.now.op)) }
    {
        match &self.op {
            Op::Update { off: _, list } => positions_in(alloc, list),
            _ => {
                let mut positions = Vec::new(alloc);
                positions.push(None)?;
                Ok(positions)
            }
        }
    }

    /// Checks whether the request may install a file at a position in its list, from 0; an open has
    /// position 0 alone.
    pub fn installs_at(&self, entry: u32) -> bool
        ensures { IsTrue result ↔ InstallsAt (operation_of self.now.op) entry }
    {
        match &self.op {
            Op::Open { name: _, target: _ } => entry == 0,
            Op::Update { off: _, list } => match list.as_slice().get(entry as usize) {
                Some(number) => *number >= 0,
                None => false,
            },
            _ => false,
        }
    }

    /// Returns the first slot that the request may reach, and the one after the last. `range` is
    /// the allocation range: its first slot and its number of slots.
    pub fn slots(&self, range: (u32, u32)) -> (usize, usize)
        ensures all { (slot : ℕ) → MayReach range (operation_of self.now.op) slot
            → (result.0 ≤ slot) × (slot < result.1) }
        ensures no_other { (slot : ℕ) → result.0 ≤ slot → slot < result.1
            → MayReach range (operation_of self.now.op) slot }
    {
        match &self.op {
            Op::Open {
                name: _,
                target: Target::Any,
            } => {
                let (first, len) = range;
                (first as usize, first as usize + len as usize)
            }
            Op::Open {
                name: _,
                target: Target::Slot(slot),
            }
            | Op::Read { slot, .. }
            | Op::Close { slot } => (*slot as usize, *slot as usize + 1),
            Op::Update { off, list } => (*off as usize, *off as usize + list.len()),
        }
    }

    /// Replaces the bytes of a buffer by those that the request reads of a file of a catalogue
    /// entry, none unless it is a read. It allocates only if the buffer has no room for them.
    ///
    /// # Errors
    /// `NoMemory` if an allocation fails.
    pub fn read_into(
        &self,
        catalogue: &Catalogue,
        entry: u8,
        into: &mut Vec<u8>,
    ) -> Result<(), NoMemory>
        ensures { OnOk result (into.new.items
            ≡ bytes_read catalogue.now (operation_of self.now.op) entry) }
    {
        into.clear();
        if let Op::Read { slot: _, off, len } = &self.op {
            into.reserve_exact(*len as usize)?;
            catalogue.read_into(entry, *off, *len, into);
        }
        Ok(())
    }

    /// Returns the bytes that the request reads of a file of a catalogue entry, as
    /// [`Request::read_into`] does.
    ///
    /// # Errors
    /// `NoMemory` if an allocation fails.
    pub fn bytes_of(
        &self,
        alloc: Global,
        catalogue: &Catalogue,
        entry: u8,
    ) -> Result<Vec<u8>, NoMemory>
        ensures { IfOk result (λ got.
            got.items ≡ bytes_read catalogue.now (operation_of self.now.op) entry) }
    {
        let mut got = Vec::new(alloc);
        self.read_into(catalogue, entry, &mut got)?;
        Ok(got)
    }

    /// Returns the result of the request, unless it is refused or canceled, if it doesn't depend on
    /// what its accesses find: 0 for an open at a slot, the length of the list for an update.
    pub fn fixed_result(&self) -> Option<i32>
        ensures fixed { IfSome result (λ res. (catalogue : List FileEntry) (place : In) (found : Option What)
            → (answer_at_table catalogue place (operation_of self.now.op) found).res ≡ res) }
        ensures none { IsWithinLimits (asked_of self.now) → result ≡ None
            → (catalogue : List FileEntry) (place : In)
            → DependsOnFindings catalogue place (operation_of self.now.op) }
    {
        match &self.op {
            Op::Open { name: _, target } => match target {
                Target::Slot(_) => Some(0),
                Target::Any => None,
            },
            Op::Update { off: _, list } => i32::try_from(list.len()).ok(),
            Op::Read { .. } => None,
            Op::Close { slot: _ } => None,
        }
    }

    /// Checks whether the request changes no slot: it is a read.
    pub fn is_read(&self) -> bool
        ensures { result ≡ is_read (operation_of self.now.op) }
    {
        matches!(self.op, Op::Read { .. })
    }

    /// Returns the number of bytes that the request asks for, 0 unless it is a read. Only a request
    /// that asks for bytes may fail with ENOMEM.
    pub fn bytes_asked(&self) -> u32
        ensures { result ≡ bytes_asked (operation_of self.now.op) }
    {
        match self.op {
            Op::Read { len, .. } => len,
            _ => 0,
        }
    }
}

/// Returns the number of accesses that a request makes at a table of `size` slots if no allocation
/// fails: 0 if it is refused ([`refusal_of`]), otherwise [`Request::accesses`].
pub fn count_of(catalogue: &Catalogue, size: u32, request: &Request) -> usize
    ensures { result ≡ count_of catalogue.now size (operation_of request.now.op) }
{
    if refusal_of(catalogue, size, request).is_some() {
        return 0;
    }
    request.accesses()
}

// Returns the intent of an open of this file.
fn open_intent(target: Target, file: Closed) -> Intent
    ensures { result ≡ open_intent target file }
{
    match target {
        Target::Slot(slot) => Intent::Put(slot, file),
        Target::Any => Intent::Allocate(file),
    }
}

// Returns what a request that isn't refused intends after `made` accesses. An open opens this
// catalogue entry.
fn intent_at(
    catalogue: &Catalogue,
    place: Place,
    entry: u8,
    request: &Request,
    made: usize,
) -> Option<Intent>
    requires { (size : ℕ) × (size < 2 ^ 32)
        × (refusal_of catalogue.now size (operation_of request.now.op) ≡ None) }
    ensures { result ≡ slice_get (intents_of place entry (operation_of request.now.op)) made }
{
    let only = match &request.op {
        Op::Open { name: _, target } => open_intent(*target, place.installed(0, entry)),
        Op::Read { slot, .. } => Intent::Look(*slot),
        Op::Close { slot } => Intent::Take(*slot),
        Op::Update { off, list } => {
            return list_intent(place, catalogue.len(), (0, *off), list, made);
        }
    };
    (made == 0).then_some(only)
}

/// Returns the access that a request intends at a table of `size` slots after `made` others, or
/// `None` if it intends no other. An open opens this catalogue entry. A refused request
/// ([`refusal_of`]) intends no access.
pub fn intent_by(
    catalogue: &Catalogue,
    size: u32,
    place: Place,
    entry: u8,
    request: &Request,
    made: usize,
) -> Option<Intent>
    ensures { result ≡ intent_by catalogue.now size place entry (operation_of request.now.op) made }
{
    if refusal_of(catalogue, size, request).is_some() {
        return None;
    }
    intent_at(catalogue, place, entry, request, made)
}

/// Returns the same of the catalogue entry that the request opens ([`Request::opened`]).
pub fn intent_of(
    catalogue: &Catalogue,
    size: u32,
    place: Place,
    request: &Request,
    made: usize,
) -> Option<Intent>
    ensures { IsIntent catalogue.now size place (operation_of request.now.op) made result }
{
    let entry = request.opened(catalogue)?;
    if refusal_of_opened(catalogue.len(), size, request).is_some() {
        return None;
    }
    intent_at(catalogue, place, entry, request, made)
}

// Returns the answer of an open.
fn open_answer(alloc: Global, place: Place, target: Target, found: Option<Finding>) -> Completion
    requires { (slot : ℕ) → found ≡ Some (Free slot) → slot < 2 ^ 31 }
    ensures { completed_of result ≡ open_answer place target found }
{
    match target {
        Target::Slot(_) => Completion::number(alloc, place, 0),
        Target::Any => match found {
            Some(Finding::Free(slot)) => Completion::number(alloc, place, slot),
            _ => Completion::refusal(alloc, place, Errno::ENFILE),
        },
    }
}

// Returns the answer of a read.
fn read_answer(
    alloc: Global,
    catalogue: &Catalogue,
    place: Place,
    off: u32,
    len: u32,
    found: Option<Finding>,
) -> Result<Completion, NoMemory>
    ensures { IfOk result (λ c. completed_of c ≡ read_answer catalogue.now place off len found) }
{
    match found {
        Some(Finding::At(Some(file))) => {
            let mut got = Vec::new(alloc);
            got.reserve_exact(len as usize)?;
            let res = catalogue.read_into(file.entry, off, len, &mut got);
            Ok(Completion {
                place,
                res: res as i32,
                got,
            })
        }
        _ => Ok(Completion::refusal(alloc, place, Errno::EBADF)),
    }
}

// Returns the answer of a close.
fn close_answer(alloc: Global, place: Place, found: Option<Finding>) -> Completion
    ensures { completed_of result ≡ close_answer place found }
{
    match found {
        Some(Finding::At(Some(_))) => Completion::number(alloc, place, 0),
        _ => Completion::refusal(alloc, place, Errno::EBADF),
    }
}

/// Returns the completion of a request at a table of `size` slots if no allocation fails, by what
/// the last one of its accesses found, `None` if it makes none.
///
/// # Errors
/// `NoMemory` if the bytes of a read can't be allocated here.
pub fn answer_of(
    alloc: Global,
    catalogue: &Catalogue,
    size: u32,
    place: Place,
    request: &Request,
    found: Option<Finding>,
) -> Result<Completion, NoMemory>
    requires slot { (slot : ℕ) → found ≡ Some (Free slot) → slot < 2 ^ 31 }
    requires limits { IsWithinLimits (asked_of request.now) }
    ensures { IfOk result (λ c. completed_of c
        ≡ answer_of catalogue.now size place (operation_of request.now.op) found) }
{
    if let Some(errno) = refusal_of(catalogue, size, request) {
        return Ok(Completion::refusal(alloc, place, errno));
    }
    match &request.op {
        Op::Open { name: _, target } => Ok(open_answer(alloc, place, *target, found)),
        Op::Read { slot: _, off, len } => read_answer(alloc, catalogue, place, *off, *len, found),
        Op::Close { slot: _ } => Ok(close_answer(alloc, place, found)),
        Op::Update { off: _, list } => Ok(Completion::number(alloc, place, list.len() as u32)),
    }
}
