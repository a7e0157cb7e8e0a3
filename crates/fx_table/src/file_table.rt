//! The trait that the shared tables of submissions implement.
ghost use Rattle.std.specs.Prelude.{◌≡◌, ℕ, ◌<◌, ◌≤◌, ◌^◌, ◌↔◌, false, map, length, All, IfOk};
ghost use Rattle.std.specs.Prelude.{IfErr, IsTrue};
ghost use Rattle.fx_plain.specs.State.{IsSettled};
ghost use Rattle.fx_plain.specs.Contents.{state_of};
ghost use Rattle.fx_plain.specs.declared.table.TheConstants.{MOST_SLOTS};
ghost use Rattle.fx_table.specs.Opening.{Opening, opening_with, IsOpenedFor, size_of, range_of};
ghost use Rattle.fx_table.specs.Opening.{IsGivenBack};
ghost use Rattle.fx_table.specs.Pass.{PassView, IsIdle, IsFront, IsHoldOf, IsRetiredOf, new_passes};
ghost use Rattle.fx_table.specs.Calls.{Draws, Looked, Released, Placed, Allocated, Cleared, Taken};
ghost use Rattle.fx_table.specs.Calls.{HasRetired};
ghost use Rattle.fx_table.specs.Closing.{ClosesTable};
ghost use Rattle.fx_table.specs.Settling.{DrawsNext, IsSettledSoFar};

use crate::limits::{CHAIN_NUMBERS, MAX_CHAINS, MAX_PASSES};
use crate::values::{Empty, Hold, LookFault, Retired};
use fx_base::{NoMemory, OpenFile};
use fx_plain::PlainTable;
use std::alloc::Global;
use std::sync::Wait;

/// A file table that threads share, each by a pass of its own, and that is opened for the chains of
/// a submission, which its passes draw. Each chain has numbers for the files that it installs, and
/// each pass has a number of look-ups.
///
/// A pass is idle, holding between a look-up and `release`, or retiring between a removal and
/// `retire`. It has a *front*, the history that it has seen, and its *own* events, those that it
/// has made; only contracts see them. Each call extends the front, and adds to the pass's own
/// events those that its clause names.
///
/// Each requirement on the caller has a test: [`FileTable::is_idle`] returns whether a pass is
/// idle, a slot must be below [`FileTable::size`], and an installation uses one of
/// [`FileTable::numbers_left`]. No test says which table a pass belongs to: use it only with the
/// table whose opening returned it. A `Hold` or a `Retired` goes back to the pass that got it.
pub trait FileTable: Sync + Sized {
    /// The type of a thread's access to the table.
    type Pass: Send;

    // The table's opening: the contents, chains, passes and numbers that it was opened with.
    ghost opening: { Self → Opening };

    // The pass belongs to this table.
    ghost fits: { Self → Self.Pass → Type 0 };

    // The events that the pass has seen and made, and its counters.
    ghost view: { Self.Pass → PassView };

    /// Shares a settled table (`PlainTable::is_settled`) between `passes` passes, 1 to
    /// [`crate::MAX_PASSES`], which play `chains` chains, at most [`crate::MAX_CHAINS`]. The file
    /// at slot `s` gets number `s`, and chain `c`, from 1, the numbers from `numbers_for(c - 1)` up
    /// to, but not including, `numbers_for(c)` ([`crate::numbers_for`]). The passes are idle, and
    /// numbered from 1 in the order of the list.
    ///
    /// # Errors
    /// `NoMemory` if an allocation fails. The table comes back settled, with its files, size and
    /// range.
    fn open(
        alloc: Global,
        plain: PlainTable,
        chains: u32,
        passes: u32,
    ) -> Result<(Self, Vec<Self::Pass>), (PlainTable, NoMemory)>
        requires settled { IsSettled (state_of plain) }
        requires chains { chains ≤ MAX_CHAINS }
        requires passes { (1 ≤ passes) × (passes ≤ MAX_PASSES) }
        ensures opened { IfOk result (λ (t, _). opening t ≡ opening_with plain chains passes) }
        ensures ready { IfOk result (λ (t, list). All (λ p. fits t p × IsIdle (view p)) list.items) }
        ensures count { IfOk result (λ (_, list). length list.items ≡ passes) }
        ensures new { IfOk result (λ (_, list). map (λ p. view p) list.items ≡ new_passes passes) }
        ensures refused { IfErr result (λ (back, _). IsGivenBack plain back) };

    /// Shares a settled table as [`FileTable::open`] does, for chains that install at most `most`
    /// files each. `most` is at most [`crate::CHAIN_NUMBERS`]. Each chain has the same number `n`
    /// of file numbers, from `most` to `CHAIN_NUMBERS`: chain `c` has those from `256 + n * (c -
    /// 1)` on. An implementation may use `most` to reserve memory for fewer numbers; the default
    /// opens the table as [`FileTable::open`] does.
    ///
    /// # Errors
    /// The errors of [`FileTable::open`].
    fn open_for(
        alloc: Global,
        plain: PlainTable,
        chains: u32,
        most: u32,
        passes: u32,
    ) -> Result<(Self, Vec<Self::Pass>), (PlainTable, NoMemory)>
        requires settled { IsSettled (state_of plain) }
        requires chains { chains ≤ MAX_CHAINS }
        requires most { most ≤ CHAIN_NUMBERS }
        requires passes { (1 ≤ passes) × (passes ≤ MAX_PASSES) }
        ensures opened { IfOk result (λ (t, _). IsOpenedFor plain chains most passes (opening t)) }
        ensures ready { IfOk result (λ (t, list). All (λ p. fits t p × IsIdle (view p)) list.items) }
        ensures count { IfOk result (λ (_, list). length list.items ≡ passes) }
        ensures new { IfOk result (λ (_, list). map (λ p. view p) list.items ≡ new_passes passes) }
        ensures refused { IfErr result (λ (back, _). IsGivenBack plain back) }
    {
        Self::open(alloc, plain, chains, passes)
    }

    /// Turns the table back into a table of one thread, after all its passes have come back, idle
    /// (`is_idle`). Requires as many passes as the opening returned, in any order. It can't run out
    /// of memory.
    fn close(self, passes: Vec<Self::Pass>) -> PlainTable
        requires all { length passes.items ≡ (opening self).passes }
        requires ready { All (λ p. fits self p × IsIdle (view p)) passes.items }
        ensures { ClosesTable (opening self) (map (λ p. view p) passes.items) result };

    /// Returns the number of slots. It is below 2^31, since a slot's number is the result of an
    /// `IORING_FILE_INDEX_ALLOC` request.
    fn size(&self) -> u32
        ensures value { result ≡ size_of (opening self.now) }
        ensures few { result < 2 ^ 31 };

    /// Returns the allocation range: the first slot and the number of slots.
    fn range(&self) -> (u32, u32)
        ensures { result ≡ range_of (opening self.now) };

    /// Returns the number of passes that the table was opened for.
    fn passes(&self) -> u32
        ensures { result ≡ (opening self.now).passes };

    /// Checks whether the pass is idle: it neither holds nor retires a file.
    fn is_idle(&self, pass: &Self::Pass) -> bool
        requires { fits self.now pass.now }
        ensures { IsTrue result ↔ IsIdle (view pass.now) };

    /// Returns the number of look-ups that the pass has left, [`crate::PASS_LOOKS`] at first. Each
    /// look-up uses one unless it returns `Spent`.
    fn looks_left(&self, pass: &Self::Pass) -> u32
        requires { fits self.now pass.now }
        ensures { result ≡ (view pass.now).looks_left };

    /// Returns the number of files that the pass can install before the next draw
    /// ([`FileTable::draw`]), one less after each installation.
    fn numbers_left(&self, pass: &Self::Pass) -> u32
        requires { fits self.now pass.now }
        ensures { result ≡ (view pass.now).numbers_left };

    /// Draws the next chain for an idle pass (`is_idle`), or returns `None` if there are no more.
    /// The chains of a pass rise, and no chain is drawn twice; a single pass draws 1, 2 and so on.
    /// After `None`, each draw of the pass returns `None`. A draw adds no event to the history.
    fn draw(&self, pass: &mut Self::Pass) -> Option<u32>
        requires fits { fits self.now pass.old }
        requires idle { IsIdle (view pass.old) }
        ensures fits { fits self.now pass.new }
        ensures drawn { Draws (opening self.now) (view pass.old) result (view pass.new) }
        ensures next { (opening self.now).passes ≡ 1
            → DrawsNext (opening self.now) (view pass.old) result };

    /// Looks up a slot below `size`, for an idle pass (`is_idle`). The file there has one more hold
    /// until the pass releases it (io_uring_enter(2), "IOSQE_FIXED_FILE").
    ///
    /// # Errors
    /// `Spent` if the pass has no look-ups left (`looks_left`); then nothing changes. `Empty` if
    /// the slot has no file. Each look-up uses one of the pass's look-ups unless it returns
    /// `Spent`.
    fn look(&self, rt: &impl Wait, pass: &mut Self::Pass, slot: u32) -> Result<Hold, LookFault>
        requires fits { fits self.now pass.old }
        requires idle { IsIdle (view pass.old) }
        requires slot { slot < size_of (opening self.now) }
        ensures fits { fits self.now pass.new }
        ensures looked { Looked (opening self.now) (view pass.old) slot result (view pass.new) };

    /// Releases the file that the pass looked up, by the `Hold` that it got. Returns the file, to
    /// be closed, if it was retired and this was its last hold. Afterwards the pass is idle.
    fn release(&self, rt: &impl Wait, pass: &mut Self::Pass, hold: Hold) -> Option<OpenFile>
        requires fits { fits self.now pass.old }
        requires held { IsHoldOf (view pass.old) hold }
        ensures fits { fits self.now pass.new }
        ensures released { Released (opening self.now) (view pass.old) hold result (view pass.new) };

    /// Installs a file at a slot below `size`, under the next number of an idle pass (`is_idle`)
    /// that has one left (`numbers_left`). Returns the file that it replaced, to be retired, or
    /// `None` (io_uring_prep_openat(3), `io_uring_prep_openat_direct`).
    fn put(
        &self,
        rt: &impl Wait,
        pass: &mut Self::Pass,
        slot: u32,
        file: OpenFile,
    ) -> Option<Retired>
        requires fits { fits self.now pass.old }
        requires idle { IsIdle (view pass.old) }
        requires slot { slot < size_of (opening self.now) }
        requires numbers { 0 < (view pass.old).numbers_left }
        ensures fits { fits self.now pass.new }
        ensures placed { Placed (opening self.now) (view pass.old) slot file result (view pass.new) };

    /// Installs a file at an empty slot of the allocation range, under a number as
    /// [`FileTable::put`] does, for an idle pass (`is_idle`) that has one left (`numbers_left`),
    /// and returns the slot (io_uring_prep_openat(3), "IORING_FILE_INDEX_ALLOC").
    ///
    /// # Errors
    /// Returns the file if every slot of the range has a file (ENFILE). No number is used.
    fn put_any(
        &self,
        rt: &impl Wait,
        pass: &mut Self::Pass,
        file: OpenFile,
    ) -> Result<u32, OpenFile>
        requires fits { fits self.now pass.old }
        requires idle { IsIdle (view pass.old) }
        requires numbers { 0 < (view pass.old).numbers_left }
        ensures fits { fits self.now pass.new }
        ensures allocated { Allocated (opening self.now) (view pass.old) file result
            (view pass.new) };

    /// Empties a slot below `size` for an update, for an idle pass (`is_idle`). Returns the file
    /// that was there, to be retired, or `None` (io_uring_register(2),
    /// "IORING_REGISTER_FILES_UPDATE", an entry of -1).
    fn clear(&self, rt: &impl Wait, pass: &mut Self::Pass, slot: u32) -> Option<Retired>
        requires fits { fits self.now pass.old }
        requires idle { IsIdle (view pass.old) }
        requires slot { slot < size_of (opening self.now) }
        ensures fits { fits self.now pass.new }
        ensures cleared { Cleared (opening self.now) (view pass.old) slot result (view pass.new) };

    /// Empties a slot below `size` for a close, for an idle pass (`is_idle`). Returns the file that
    /// was there, to be retired (io_uring_prep_close(3), `io_uring_prep_close_direct`).
    ///
    /// # Errors
    /// `Empty` if the slot has no file.
    fn take(&self, rt: &impl Wait, pass: &mut Self::Pass, slot: u32) -> Result<Retired, Empty>
        requires fits { fits self.now pass.old }
        requires idle { IsIdle (view pass.old) }
        requires slot { slot < size_of (opening self.now) }
        ensures fits { fits self.now pass.new }
        ensures taken { Taken (opening self.now) (view pass.old) slot result (view pass.new) };

    /// Retires the file that the pass removed, by the `Retired` that it got. Returns the file, to
    /// be closed, if it has no holds now. Otherwise its last release returns it. Afterwards the
    /// pass is idle.
    fn retire(&self, rt: &impl Wait, pass: &mut Self::Pass, retired: Retired) -> Option<OpenFile>
        requires fits { fits self.now pass.old }
        requires removed { IsRetiredOf (view pass.old) retired }
        ensures fits { fits self.now pass.new }
        ensures retired { HasRetired (opening self.now) (view pass.old) retired result
            (view pass.new) };

    /// Establishes, for an idle pass (`is_idle`) that is the table's only one (`passes` is 1), that
    /// its own events are the whole history so far, that no file is held, and that each removed
    /// file is closed. Nothing changes.
    fn settle(&self, pass: &mut Self::Pass)
        requires alone { (opening self.now).passes ≡ 1 }
        requires fits { fits self.now pass.old }
        requires idle { IsIdle (view pass.old) }
        ensures fits { fits self.now pass.new }
        ensures same { view pass.new ≡ view pass.old }
        ensures settled { IsSettledSoFar (opening self.now) (view pass.new) };

    // A pass's front is legal, and its events of this pass are the pass's own.
    ghost fronts: { (table : Self) (pass : Self.Pass) → fits table pass
        → IsFront (opening table) (view pass) };

    // The table has at most `MOST_SLOTS` slots, as a `PlainTable` has.
    ghost few: { (table : Self) → size_of (opening table) ≤ MOST_SLOTS };

    // The numbers and look-ups of the table run out.
    ghost ends: { (table : Self) → (opening table).lasts ≡ false };
}
