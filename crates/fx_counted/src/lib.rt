//! A shared file table without a lock: a look-up is one atomic addition, a release one atomic
//! subtraction, and only an open at any slot may wait.
//!
//! [`CountedTable`] implements `fx_table::FileTable`, whose contract is all that others use; the
//! calls of `calls.rt` also bound the number of their atomic steps. Begin reading at `calls.rt`,
//! then `specs/Agrees.antt` (the rule that every step keeps) and `layout.rt` (the places of the
//! words).
#![tactic(auto)]

mod calls;
mod close;
mod file_table;
mod free_slot;
mod in_range;
mod kinds;
pub mod laws;
mod layout;
mod moves;
mod open;
mod pass;
mod round;
mod shown;
mod table;
mod view;

pub use pass::CountedPass;
pub use shown::CountedSeen;
pub use table::CountedTable;
