//! The calls by key: the slot of a file and its number. A call that is refused returns the first of
//! `BUSY`, `READER` and `NO_SLOT` that applies.
ghost use Rattle.fx_server.specs.ByKey.{GetsAs, RemovesAs, ReplacesAs, key_of};

use crate::answers::{CoreOutcome, NO_OUTCOME, consume, fault_code};
use crate::codes::{BUSY, DONE, IN_USE, READER};
use crate::shared::file_with;
use crate::worker::{TableWorker, note};
use fx_lasting::{Key, KeyLook, KeyPut, KeyTaken, PutOverKey};

impl TableWorker {
    /// Looks up the file of a key, as `yacht_core_get` says. The worker holds it until `release`.
    #[inline(always)]
    pub fn get(&mut self, slot: u32, number: u64, out: &mut CoreOutcome) -> i64
        ensures found { GetsAs self.old (key_of slot number) result out.new self.new }
    {
        if self.held.is_some() {
            *out = NO_OUTCOME;
            return BUSY;
        }
        let table = &self.shared.table;
        let KeyLook {
            found,
            freed,
            released,
        } = table.look_key(&mut self.pass, Key { slot, number });
        consume(freed, DONE, &mut out.freed);
        consume(released, DONE, &mut out.released);
        match found {
            Ok(hold) => {
                out.tag = note(table, &mut self.pass, &mut self.held, hold, number);
                out.number = number;
                DONE
            }
            Err(fault) => {
                out.number = 0;
                out.tag = 0;
                fault_code(fault)
            }
        }
    }

    /// Removes the file of a key, as `yacht_core_remove` says. The worker's pass holds it
    /// meanwhile, and its hold ends with the removal.
    #[inline(always)]
    pub fn remove(&mut self, slot: u32, number: u64, out: &mut CoreOutcome) -> i64
        ensures removed { RemovesAs self.old (key_of slot number) result out.new self.new }
    {
        *out = NO_OUTCOME;
        if self.held.is_some() {
            return BUSY;
        }
        let table = &self.shared.table;
        if !table.installs(&self.pass) {
            return READER;
        }
        let KeyTaken {
            taken,
            freed,
            released,
        } = table.take_key(&mut self.pass, Key { slot, number });
        consume(freed, DONE, &mut out.freed);
        consume(released, DONE, &mut out.released);
        match taken {
            Ok(retired) => consume(table.retire(&mut self.pass, retired), IN_USE, &mut out.tag),
            Err(fault) => fault_code(fault),
        }
    }

    /// Replaces the file of a key by one with this tag and the worker's next number, as
    /// `yacht_core_replace` says. The worker's pass holds the old file meanwhile, and its hold ends
    /// with the replacement.
    #[inline(always)]
    pub fn replace(&mut self, slot: u32, number: u64, tag: u64, out: &mut CoreOutcome) -> i64
        ensures placed { ReplacesAs self.old (key_of slot number) tag result out.new self.new }
    {
        *out = NO_OUTCOME;
        if self.held.is_some() {
            return BUSY;
        }
        let table = &self.shared.table;
        if !table.installs(&self.pass) {
            return READER;
        }
        let file = file_with(tag, self.numbers.next);
        let KeyPut {
            put,
            freed,
            released,
        } = table.put_over_key(&mut self.pass, Key { slot, number }, file);
        consume(freed, DONE, &mut out.freed);
        consume(released, DONE, &mut out.released);
        match put {
            PutOverKey::Replaced(retired) => {
                out.number = self.numbers.draw();
                consume(table.retire(&mut self.pass, retired), IN_USE, &mut out.tag)
            }
            PutOverKey::Missed(fault, file) => {
                file.discard();
                fault_code(fault)
            }
        }
    }
}
