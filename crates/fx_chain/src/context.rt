//! The values that a request is performed with.
ghost use Rattle.std.specs.Prelude.{◌≡◌, ◌<◌, ◌^◌, pos, []};
ghost use Rattle.fx_chain.specs.Completed.{completed, completed_of, refusal};

use crate::completion::{Completion, Place};
use fx_base::{Catalogue, CloseList, Errno};
use fx_table::FileTable;
use std::alloc::Global;

/// The values that stay the same while a request is performed: the table, the catalogue, and the
/// request's place.
#[derive(Drop)]
pub(crate) struct Context<'a, T: FileTable, R> {
    pub(crate) rt: &'a R,
    pub(crate) alloc: Global,
    pub(crate) table: &'a T,
    pub(crate) catalogue: &'a Catalogue,
    pub(crate) place: Place,
}

/// The player of a request: a pass of the table, and the list of the files that it closes.
#[derive(Drop)]
pub(crate) struct Player<'a, P> {
    pub(crate) pass: &'a mut P,
    pub(crate) closes: &'a mut CloseList,
}

impl<T: FileTable, R> Context<'_, T, R> {
    // Creates the answer of a request that fails with the error.
    pub(crate) fn refusal(&self, errno: Errno) -> Completion
        ensures { completed_of result ≡ refusal self.now.place errno }
    {
        Completion::refusal(self.alloc, self.place, errno)
    }

    // Creates the answer of a request that returns a number and no bytes.
    pub(crate) fn number(&self, res: u32) -> Completion
        requires { res < 2 ^ 31 }
        ensures { completed_of result ≡ completed self.now.place (pos res) [] }
    {
        Completion::number(self.alloc, self.place, res)
    }
}
