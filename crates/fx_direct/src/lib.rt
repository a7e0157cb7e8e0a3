//! The lives of the slots of a ring's table of direct descriptors.
//!
//! A server that keeps its connections in fixed files has to know when it may close a slot, when it
//! may use the slot again, and to which connection a completion belongs. [`DirectSlots`] counts
//! this: the open, the requests, the other users and the close of each life of each slot. It makes
//! no system call. It says what to submit, and takes the completions. The laws of all flights of
//! the machine over the model of the table (`fx_plain`) are in `laws.rt`; above all,
//! [`laws::each_access_finds_its_own`]. Begin reading at `phase.rt` and `specs/Transitions.antt`,
//! then `slots.rt` and `specs/Flight.antt`.
#![tactic(auto)]

mod chain;
mod crossing;
mod ending;
mod key;
pub mod laws;
mod phase;
mod refusal;
mod slot_list;
mod slot_order;
mod slots;
mod transition;

pub use chain::{ChainEnd, ChainOpen, LifeChain, Member};
pub use crossing::machine_crosses;
pub use key::{KINDS, LifeKey, MOST_LIVES, MOST_SLOTS};
pub use phase::{Phase, PhaseName, Slot};
pub use refusal::{AdoptRefusal, LifeRefusal, ReserveRefusal};
pub use slot_order::SlotRange;
pub use slots::DirectSlots;
pub use transition::Transition;
