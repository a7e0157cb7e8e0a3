//! A pass together with its table.
ghost use Rattle.std.specs.Prelude.{◌≡◌};
ghost use Rattle.fx_server.specs.Words.{Some, IsHoldOf, view_of, IsPassOfTable};
ghost use Rattle.fx_server.specs.Answers.{GetsAtAs, ReleasesAs, RemovesAtAs, ChecksCurrentAs};
ghost use Rattle.fx_server.specs.Workers.{HasLabel, HasNumber};

use crate::answers::{CoreOutcome, NO_OUTCOME, consume};
use crate::codes::{BUSY, DONE, EMPTY, IDLE, IN_USE, NO_SLOT, READER};
use crate::file_numbers::FileNumbers;
use crate::shared::Shared;
use fx_lasting::{LastingPass, LastingTable};
use fx_table::{Hold, LookUp};
use std::alloc::Global;
use std::marker::Model;
use std::sync::Arc;

/// The hold of a worker: the fields of a `Hold`.
#[derive(Clone, Copy)]
pub struct Held {
    /// The node of the file.
    pub node: u32,
    /// The entry of the file.
    pub entry: u8,
}

/// A pass with its table. It holds at most one file at a time, by the user's look-up. The pass is
/// last, so that the workers of two threads share no cache line (`LastingPass`). Between two calls
/// the pass is one of the table, and is idle or holds by the worker's hold.
pub struct TableWorker {
    pub(crate) shared: Arc<Shared, Global>,
    pub(crate) held: Option<Held>,
    pub(crate) numbers: FileNumbers,
    pub(crate) pass: LastingPass,
}

impl Model for TableWorker {
    ghost use Rattle.fx_server.specs.Words.{arc_value};
    ghost use Rattle.fx_server.specs.Worker.{TableWorker as Worker};
    ghost use Rattle.fx_server.specs.Workers.{IsGood, worker_of};

    ghost Value = { Worker };

    ghost view = { λ s. worker_of (arc_value s.shared) s.held s.numbers s.pass };

    ghost invariant = { λ s. IsGood (worker_of (arc_value s.shared) s.held s.numbers s.pass) };
}

impl Drop for TableWorker {
    fn drop(self) {
        let TableWorker {
            shared,
            pass,
            held: _,
            numbers: _,
        } = self;
        pass.abandon();
        drop(shared);
    }
}

impl TableWorker {
    /// Looks a slot up, as `yacht_core_get_at` says. The worker holds the file until `release`.
    #[inline(always)]
    pub fn get_at(&mut self, slot: u32, out: &mut CoreOutcome) -> i64
        ensures found { GetsAtAs self.old slot result out.new self.new }
    {
        if self.held.is_some() {
            *out = NO_OUTCOME;
            return BUSY;
        }
        let table = &self.shared.table;
        if slot >= table.size() {
            *out = NO_OUTCOME;
            return NO_SLOT;
        }
        let LookUp { found, freed } = table.look_up(&mut self.pass, slot);
        consume(freed, DONE, &mut out.freed);
        out.released = 0;
        let Ok(hold) = found else {
            out.number = 0;
            out.tag = 0;
            return EMPTY;
        };
        out.number = table.number_of(&mut self.pass, &hold);
        out.tag = note(table, &mut self.pass, &mut self.held, hold, out.number);
        DONE
    }

    /// Releases the file that the worker holds, and writes its tag, if it was removed and nobody
    /// uses it any more, or 0. Returns `DROPPED` or `DONE`; or `IDLE` if the worker holds no file.
    #[inline(always)]
    pub fn release(&mut self, dropped: &mut u64) -> i64
        ensures released { ReleasesAs self.old result dropped.new self.new }
    {
        let Some(Held { node, entry }) = self.held.take() else {
            *dropped = 0;
            return IDLE;
        };
        let hold = Hold { node, entry };
        consume(
            self.shared.table.release(&mut self.pass, hold),
            DONE,
            dropped,
        )
    }

    /// Checks whether a slot has the file that the worker holds, as `yacht_core_is_current` says.
    /// The worker holds the file still.
    #[inline(always)]
    pub fn is_current(&mut self, slot: u32) -> i64
        ensures checked { ChecksCurrentAs self.old slot result self.new }
    {
        let Some(Held { node, entry: _ }) = self.held else {
            return IDLE;
        };
        let table = &self.shared.table;
        if slot >= table.size() {
            return NO_SLOT;
        }
        if table.is_current(&mut self.pass, slot, node) {
            1
        } else {
            0
        }
    }

    /// Empties a slot, as `yacht_core_remove_at` says.
    #[inline(always)]
    pub fn remove_at(&mut self, slot: u32, out: &mut CoreOutcome) -> i64
        ensures removed { RemovesAtAs self.old slot result out.new self.new }
    {
        *out = NO_OUTCOME;
        if self.held.is_some() {
            return BUSY;
        }
        let table = &self.shared.table;
        if slot >= table.size() {
            return NO_SLOT;
        }
        if !table.installs(&self.pass) {
            return READER;
        }
        let Ok(retired) = table.take(&mut self.pass, slot) else {
            return EMPTY;
        };
        consume(table.retire(&mut self.pass, retired), IN_USE, &mut out.tag)
    }
}

// Notes the hold of a file with this number, and returns the file's tag.
#[inline(always)]
pub(crate) fn note(
    table: &LastingTable,
    pass: &mut LastingPass,
    held: &mut Option<Held>,
    hold: Hold,
    number: u64,
) -> u64
    requires fits { IsPassOfTable table.now pass.old }
    requires holds { IsHoldOf (view_of pass.old) hold }
    requires number { HasNumber (view_of pass.old) hold number }
    ensures fits { IsPassOfTable table.now pass.new }
    ensures same { view_of pass.new ≡ view_of pass.old }
    ensures held { held.new ≡ Some (record { node = hold.node; entry = hold.entry }) }
    ensures label { HasLabel (view_of pass.old) hold result number }
{
    let tag = table.tag_of(pass, &hold);
    let Hold { node, entry } = hold;
    *held = Some(Held { node, entry });
    tag
}
