//! Accesses: what requests do to a table when they are done one at a time.
ghost use Rattle.std.specs.Prelude.{◌≡◌};
ghost use Rattle.fx_order.specs.Access.{file_removed_by, finding_of};

use fx_base::Closed;
use fx_chain::Finding;

/// An access of a table by a request, when requests are done one at a time. A request that reaches
/// the table makes one access, and an update one for each entry of its list that isn't a skip.
/// Slots come first, then the file that is installed, then the file that was found there.
#[derive(Clone, Copy, Debug, PartialEq, Eq)]
pub enum Access {
    /// A read looks at a slot.
    Looks(u32, Option<Closed>),
    /// An open, or an entry of an update, installs a file at a slot.
    Puts(u32, Closed, Option<Closed>),
    /// An entry of an update empties a slot.
    Clears(u32, Option<Closed>),
    /// A close empties a slot.
    Takes(u32, Option<Closed>),
    /// An open installs a file at an empty slot of the allocation range.
    Allocates(u32, Closed),
    /// An open finds no empty slot in the allocation range.
    FindsFull,
}

impl Access {
    /// Returns the file that the access takes from its slot, or `None` if it takes none.
    pub fn removed(&self) -> Option<Closed>
        ensures { result ≡ file_removed_by self.now }
    {
        match self {
            Access::Puts(_, _, removed) => *removed,
            Access::Clears(_, removed) => *removed,
            Access::Takes(_, removed) => *removed,
            _ => None,
        }
    }

    /// Returns what the access found.
    pub fn found(&self) -> Finding
        ensures { result ≡ finding_of self.now }
    {
        match self {
            Access::Looks(_, file)
            | Access::Puts(_, _, file)
            | Access::Clears(_, file)
            | Access::Takes(_, file) => Finding::At(*file),
            Access::Allocates(slot, _) => Finding::Free(*slot),
            Access::FindsFull => Finding::Full,
        }
    }
}

/// An access, and the chain whose request makes it.
#[derive(Clone, Copy, Debug, PartialEq, Eq)]
pub struct ChainAccess {
    /// The number of the chain in the submission, from 1.
    pub chain: u32,
    /// The access.
    pub access: Access,
}
