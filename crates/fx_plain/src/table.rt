//! The file table of one thread.
ghost use Rattle.std.specs.Prelude.{◌≡◌, ◌+◌, ◌<◌, ◌≤◌, ◌↔◌, ℕ, length, true, option_map};
ghost use Rattle.std.specs.Prelude.{IfOk, IsTrue, IsOk, OnOk, OnErr, None};
ghost use Rattle.fx_plain.specs.State.{vacant, IsSettled, files_of};
ghost use Rattle.fx_plain.specs.Contents.{state_of, leaving, numbers_of, IsTable};
ghost use Rattle.fx_plain.specs.Table.{SetsRange, identity_of};

mod files;
mod holds;
mod life;
mod slots;

use crate::hold_list::HoldList;
use crate::node_list::NodeList;
use crate::slot_span::SlotSpan;
use fx_base::{Closed, Mark, NoMemory};
use std::alloc::Global;
use std::marker::Model;

/// The greatest number of slots of a table.
pub const MOST_SLOTS: u32 = 256;

/// The error that an allocation range isn't within the table (EINVAL; io_uring_register(2),
/// "IORING_REGISTER_FILE_ALLOC_RANGE").
#[derive(Clone, Copy, Debug, PartialEq, Eq)]
pub struct BadRange;

/// The file table of one thread: slots, each empty or with one open file, an allocation range, and
/// the files that were removed and aren't closed yet. It must be consumed: the compiler rejects a
/// program that drops one without [`PlainTable::dismiss`] or [`PlainTable::abandon`]. Slots are
/// numbered from 0, and a call that names a slot requires that it is below [`PlainTable::size`].
///
/// Each file has a number of its own from [`PlainTable::prepare`] on. A removed file is *leaving*
/// until it is retired. It is handed out, to be closed, once it is retired and has no holds.
/// Numbers, holds and retirement are this project's own. Contracts see the state of the model as
/// `state_of`, the set of leaving files as `leaving`, and the number of prepared numbers as
/// `numbers_of`.
pub struct PlainTable {
    // The number of the file at each slot.
    slots: Vec<Option<u32>>,
    range_start: u32,
    range_len: u32,
    // By number, each file's state and its holds.
    nodes: NodeList,
    holds: HoldList,
    numbers: u32,
    // Counters of full slots, holds and removed files, so that no check has to search the lists.
    full: u32,
    held: u64,
    removed: u32,
    // Outside this span each file has its slot's own number, so that a preparation has nothing to
    // do there.
    to_renumber: SlotSpan,
}

impl Model for PlainTable {
    ghost use Rattle.fx_plain.specs.Contents.{Contents, IsTable, IsCounted};
    ghost use Rattle.fx_plain.specs.OwnNumbers.{HaveOwnOutside};

    ghost Value = { Contents };

    ghost view = { λ t. record {
      slots = t.slots.items;
      range = (t.range_start, t.range_len);
      nodes = t.nodes;
      holds = t.holds;
      numbers = t.numbers;
    } };

    ghost invariant = { λ t.
        let c : Contents = record {
          slots = t.slots.items;
          range = (t.range_start, t.range_len);
          nodes = t.nodes;
          holds = t.holds;
          numbers = t.numbers;
        } in (IsTable c × IsCounted c t.full t.held t.removed)
        × HaveOwnOutside c.slots t.to_renumber };
}

impl PlainTable {
    /// Creates a table without slots and with an empty allocation range, as a ring has before a
    /// registration.
    pub fn none(alloc: Global) -> PlainTable
        ensures state { state_of result ≡ vacant 0 }
        ensures numbers { numbers_of result ≡ 0 }
    {
        PlainTable {
            slots: Vec::new(alloc),
            range_start: 0,
            range_len: 0,
            nodes: NodeList::none(alloc),
            holds: HoldList::none(alloc),
            numbers: 0,
            full: 0,
            held: 0,
            removed: 0,
            to_renumber: SlotSpan::none(),
        }
    }

    /// Creates a table of `n` empty slots, 1 to [`MOST_SLOTS`], all of them in the allocation range
    /// (io_uring_register_files(3), `io_uring_register_files_sparse`). It is settled, as a
    /// preparation and a shared table require.
    ///
    /// # Errors
    /// `NoMemory` if the allocation for the slots fails.
    #[tactic(auto, using(crate::proofs::Settled::sparse_keeps, crate::proofs::Cells::read_default))]
    pub fn sparse(alloc: Global, n: u32) -> Result<PlainTable, NoMemory>
        requires some { 1 ≤ n }
        requires few { n ≤ MOST_SLOTS }
        ensures state { IfOk result (λ table. state_of table ≡ vacant n) }
        ensures numbers { IfOk result (λ table. numbers_of table ≡ n) }
        ensures size { IfOk result (λ table. (state_of table).size ≡ n) }
        ensures empty { IfOk result (λ table. (slot : ℕ) → (state_of table).at slot ≡ None) }
        ensures settled { IfOk result (λ table. IsSettled (state_of table)) }
    {
        let slots = vec![in alloc; None; n as usize]?;
        Ok(PlainTable {
            slots,
            range_start: 0,
            range_len: n,
            nodes: NodeList::none(alloc),
            holds: HoldList::none(alloc),
            numbers: n,
            full: 0,
            held: 0,
            removed: 0,
            to_renumber: SlotSpan::none(),
        })
    }

    /// Returns the number of slots, at most [`MOST_SLOTS`].
    pub fn size(&self) -> u32
        ensures value { result ≡ (state_of self.now).size }
        ensures few { result ≤ MOST_SLOTS }
        ensures sound { IsTable self.now }
    {
        self.slots.len() as u32
    }

    /// Returns the allocation range: the first slot and the number of slots. It is within the table
    /// (io_uring_register(2), "IORING_REGISTER_FILE_ALLOC_RANGE").
    pub fn range(&self) -> (u32, u32)
        ensures value { result ≡ (state_of self.now).range }
        ensures inside { (state_of self.now).range.0 + (state_of self.now).range.1
            ≤ (state_of self.now).size }
    {
        (self.range_start, self.range_len)
    }

    /// Sets the allocation range to `len` slots from `off` on (io_uring_register(2),
    /// "IORING_REGISTER_FILE_ALLOC_RANGE"). `len` may be 0. Nothing else changes.
    ///
    /// # Errors
    /// `BadRange` if `off + len`, computed without overflow, is above the size. The table then
    /// stays as it was.
    pub fn set_range(&mut self, off: u32, len: u32) -> Result<(), BadRange>
        ensures accepted { IsOk result ↔ (off + len ≤ (state_of self.old).size) }
        ensures ok { OnOk result (SetsRange self.old self.new off len) }
        ensures err { OnErr result (self.new ≡ self.old) }
    {
        if off as u64 + len as u64 > self.slots.len() as u64 {
            return Err(BadRange);
        }
        self.range_start = off;
        self.range_len = len;
        Ok(())
    }

    /// Returns the number of slots that have a file, in the allocation range or not.
    pub fn full(&self) -> u32
        ensures { result ≡ length (files_of (state_of self.now)) }
    {
        self.full
    }

    /// Returns the mark of the file at a slot, or `None` if the slot is empty.
    pub fn mark_at(&self, slot: u32) -> Option<Mark>
        requires { slot < (state_of self.now).size }
        ensures { result ≡ option_map (λ f. f.identity.mark) ((state_of self.now).at slot) }
    {
        Some(self.identity_at(slot)?.mark)
    }

    /// Returns the catalogue entry of the file at a slot, or `None` if the slot is empty.
    pub fn entry_at(&self, slot: u32) -> Option<u8>
        requires { slot < (state_of self.now).size }
        ensures { result ≡ option_map (λ f. f.identity.entry) ((state_of self.now).at slot) }
    {
        Some(self.identity_at(slot)?.entry)
    }

    fn identity_at(&self, slot: u32) -> Option<Closed>
        requires { slot < (state_of self.now).size }
        ensures { result ≡ identity_of ((state_of self.now).at slot) }
    {
        let number = self.slots[slot as usize]?;
        Some(self.nodes.file(number).identity())
    }

    /// Returns the number of file numbers that were last prepared; before the first preparation,
    /// the size at creation.
    pub fn numbers(&self) -> u32
        ensures { result ≡ numbers_of self.now }
    {
        self.numbers
    }

    /// Checks whether the number was prepared and no file has had it, so that a file may get it.
    pub fn is_fresh(&self, number: u32) -> bool
        ensures { result ≡ (state_of self.now).fresh number }
    {
        self.nodes.is_fresh(number)
    }

    /// Checks whether the file with the number has a hold. The file may be at a slot or removed.
    pub fn is_held(&self, number: u32) -> bool
        ensures { IsTrue result ↔ (0 < (state_of self.now).holds number) }
    {
        self.holds.of(number) > 0
    }

    /// Checks whether the file with the number was removed and isn't retired yet.
    pub fn is_leaving(&self, number: u32) -> bool
        ensures { result ≡ leaving self.now number }
    {
        self.nodes.is_leaving(number)
    }

    /// Checks whether no file has a hold and every removed file is closed.
    pub fn is_settled(&self) -> bool
        ensures { IsTrue result ↔ IsSettled (state_of self.now) }
    {
        self.held == 0 && self.removed == 0
    }
}
