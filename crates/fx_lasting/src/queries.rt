//! Queries of a table and its passes.
ghost use Rattle.std.specs.Prelude.{◌≡◌, ◌<◌, ◌≤◌, ◌↔◌};
ghost use Rattle.fx_lasting.specs.Words.{IsTrue, size_of, range_of, IsIdle};
ghost use Rattle.fx_lasting.specs.Tables.{view_of, opening_of_table, IsPassOfTable};

use crate::life::layout::MOST_SLOTS;
use crate::pass::LastingPass;
use crate::table::LastingTable;
use fx_table::{CHAIN_NUMBERS, PASS_LOOKS};

impl LastingTable {
    /// Returns the number of slots, at most [`MOST_SLOTS`].
    pub fn size(&self) -> u32
        ensures value { result ≡ size_of (opening_of_table self.now) }
        ensures few { result ≤ MOST_SLOTS }
    {
        self.size
    }

    /// Returns the allocation range: the first slot and the number of slots.
    pub fn range(&self) -> (u32, u32)
        ensures { result ≡ range_of (opening_of_table self.now) }
    {
        (self.range_start, self.range_len)
    }

    /// Returns the number of passes that the table was opened for.
    pub fn passes(&self) -> u32
        ensures { result ≡ (opening_of_table self.now).passes }
    {
        self.passes
    }

    /// Returns the number of passes that install files: those numbered from 1 to this number.
    pub fn installing(&self) -> u32
        ensures { result ≡ self.now.table.shared.key.installing }
    {
        self.installing
    }

    /// Checks whether the pass installs files: it is one of the first `installing` passes.
    pub fn installs(&self, pass: &LastingPass) -> bool
        requires { IsPassOfTable self.now pass.now }
        ensures { IsTrue result ↔ (0 < (view_of pass.now).numbers_left) }
    {
        self.numbers_left(pass) > 0
    }

    /// Checks whether the pass holds no file and has none to retire.
    pub fn is_idle(&self, pass: &LastingPass) -> bool
        requires { IsPassOfTable self.now pass.now }
        ensures { IsTrue result ↔ IsIdle (view_of pass.now) }
    {
        pass.idle
    }

    /// Returns the number of look-ups that the pass has left, always [`fx_table::PASS_LOOKS`].
    pub fn looks_left(&self, pass: &LastingPass) -> u32
        requires { IsPassOfTable self.now pass.now }
        ensures { result ≡ (view_of pass.now).looks_left }
    {
        let _pass = pass;
        PASS_LOOKS
    }

    /// Returns the number of files that the pass can install: 0 if it installs none, and otherwise
    /// always [`fx_table::CHAIN_NUMBERS`].
    pub fn numbers_left(&self, pass: &LastingPass) -> u32
        requires { IsPassOfTable self.now pass.now }
        ensures { result ≡ (view_of pass.now).numbers_left }
    {
        if self.installing < pass.number {
            0
        } else {
            CHAIN_NUMBERS
        }
    }
}
