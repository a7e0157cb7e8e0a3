//! A shared file table guarded by one atomic word: the pass that exchanges the word has the whole
//! table of one thread, in place.
//!
//! [`BatonTable`] implements `fx_table::FileTable`, whose contract is all that others use. Begin
//! reading at `table.rt` (taking the table and putting it back) and `specs/Rule.antt` (the rule
//! that every step keeps).
#![tactic(auto)]

mod calls;
mod kinds;
pub mod laws;
mod life;
mod pass;
mod shown;
mod table;
mod view;

pub use pass::BatonPass;
pub use shown::BatonSeen;
pub use table::BatonTable;
