//! The 64-bit words of the lock-free table: functions that pack them and read them.
//!
//! - A slot word has the number of the slot's file plus one in bits 63 to 40, its catalogue entry
//!   in bits 39 to 32, and its takes in bits 31 to 0: the number of look-ups since the word was put
//!   in place. The slot is empty if bits 63 to 40 are 0.
//! - A node word counts down a file's releases until the file is retired. After that it is the
//!   number of holds.
//! - The control word counts the full slots of the allocation range, and the passes that are about
//!   to change that number.
//!
//! Each function's contract equates it with a number of `specs/Words.antt`. The contract that
//! others rely on is in `laws.rt`: reading a slot word yields what it was packed from, and one more
//! take changes only the takes. Begin reading at `slot.rt`.
#![tactic(auto)]

mod control;
pub mod laws;
mod node;
mod slot;

pub use control::{begin_amount, control_word, end_amount, says_full};
pub use node::retire_amount;
pub use slot::{entry_of, node_of, slot_word, takes_of};
