//! The model of a file table, and the file table of one thread.
//!
//! The model (`specs/State.antt`, `Step.antt`, `History.antt`) says which steps a table allows and
//! which state each step leads to. [`PlainTable`] implements it: each call's contract names the
//! steps that it makes. The laws of all histories are in `laws.rt`; above all,
//! [`laws::no_close_while_held`]. Begin reading at `specs/State.antt`, then `table.rt`.
#![tactic(auto)]

mod event;
mod hold_list;
pub mod laws;
mod node;
mod node_list;
mod slot_span;
mod table;

pub use event::{Action, Event, File};
pub use table::{BadRange, MOST_SLOTS, PlainTable};
