//! A shared file table without a lock that never has to be closed. A cold file is looked up by an
//! addition to its slot's word, a hot one by its name in a word of the pass's own. No call waits.
//!
//! Begin reading at `calls.rt`, then `specs/Agrees.antt` (the rule that every step keeps) and
//! `life/layout.rt` (the places of the words). `table_range` has the words that count the
//! allocation range.
#![tactic(auto)]

mod answers;
mod calls;
mod fields;
mod holds;
mod key;
mod key_answers;
mod kinds;
pub mod laws;
mod life;
mod nodes;
mod pass;
mod queries;
mod range;
pub mod retries;
mod slots;
mod table;
mod tried;
mod view;

pub use answers::{FoundSlot, PutEmpty};
pub use key::Key;
pub use key_answers::{KeyFault, KeyLook, KeyPut, KeyTaken, PutOverKey};
pub use life::layout::{MOST_INSTALLING, MOST_PASSES, MOST_SLOTS};
pub use life::shown::LastingSeen;
pub use pass::LastingPass;
pub use table::LastingTable;
pub use tried::TriedPut;
