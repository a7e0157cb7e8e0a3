//! The installations of a worker. Each file that is installed gets the next number of the worker,
//! or the one that the worker drew before and kept. A call that is refused returns the first of
//! `BUSY`, `NO_SLOT` and `READER` that applies.
ghost use Rattle.fx_server.specs.Answers.{FindsAs, InsertsAs, PutsEmptyAs, ReplacesAtAs};

use crate::answers::{CoreOutcome, NO_OUTCOME, consume};
use crate::codes::{AGAIN, BUSY, DONE, FULL, IN_USE, NO_SLOT, READER, STALE};
use crate::shared::file_with;
use crate::worker::TableWorker;
use fx_lasting::{FoundSlot, PutEmpty, TriedPut};

impl TableWorker {
    /// Installs a file with this tag and the worker's next number at a slot, as
    /// `yacht_core_replace_at` says.
    #[inline(always)]
    pub fn replace_at(&mut self, slot: u32, tag: u64, out: &mut CoreOutcome) -> i64
        ensures placed { ReplacesAtAs self.old slot tag result out.new self.new }
    {
        *out = NO_OUTCOME;
        if self.held.is_some() {
            return BUSY;
        }
        let table = &self.shared.table;
        if slot >= table.size() {
            return NO_SLOT;
        }
        if !table.installs(&self.pass) {
            return READER;
        }
        let file = file_with(tag, self.numbers.next);
        let removed = table.put(&mut self.pass, slot, file);
        out.number = self.numbers.draw();
        match removed {
            None => DONE,
            Some(retired) => {
                consume(table.retire(&mut self.pass, retired), IN_USE, &mut out.tag)
            }
        }
    }

    /// Makes one round to install a file with this tag and the worker's next number at a free slot,
    /// as `yacht_core_insert` says.
    #[inline(always)]
    pub fn insert(&mut self, tag: u64, number: &mut u64) -> i64
        ensures allocated { InsertsAs self.old tag result number.new self.new }
    {
        *number = 0;
        if self.held.is_some() {
            return BUSY;
        }
        let table = &self.shared.table;
        if !table.installs(&self.pass) {
            return READER;
        }
        let file = file_with(tag, self.numbers.next);
        match table.try_put_any(&mut self.pass, file) {
            TriedPut::At(slot) => {
                *number = self.numbers.draw();
                slot as i64
            }
            TriedPut::Full(file) => {
                file.discard();
                FULL
            }
            TriedPut::Again(file) => {
                file.discard();
                AGAIN
            }
        }
    }

    /// Finds an empty slot, and draws the next number, which the worker keeps for the file that
    /// `put_empty` installs, as `yacht_core_find` says. So a value can be made from its key.
    #[inline(always)]
    pub fn find(&mut self, number: &mut u64) -> i64
        ensures found { FindsAs self.old result number.new self.new }
    {
        *number = 0;
        if self.held.is_some() {
            return BUSY;
        }
        let table = &self.shared.table;
        if !table.installs(&self.pass) {
            return READER;
        }
        match table.find(&mut self.pass) {
            FoundSlot::At(slot) => {
                *number = self.numbers.keep();
                slot as i64
            }
            FoundSlot::Full => FULL,
            FoundSlot::Again => AGAIN,
        }
    }

    /// Installs a file with this tag at a slot if it is empty, as `yacht_core_put_empty` says. The
    /// file gets the number that the worker kept, which it keeps no longer.
    #[inline(always)]
    pub fn put_empty(&mut self, slot: u32, tag: u64) -> i64
        ensures placed { PutsEmptyAs self.old slot tag result self.new }
    {
        let number = self.numbers.spend_kept();
        if self.held.is_some() {
            return BUSY;
        }
        let table = &self.shared.table;
        if !table.allocates(slot) {
            return NO_SLOT;
        }
        if !table.installs(&self.pass) {
            return READER;
        }
        match table.put_empty(&mut self.pass, slot, file_with(tag, number)) {
            PutEmpty::Installed => DONE,
            PutEmpty::Stale(file) => {
                file.discard();
                STALE
            }
            PutEmpty::Again(file) => {
                file.discard();
                AGAIN
            }
        }
    }
}
