//! Requests on a file table, the chains that link them, and the answers that each may get.
//!
//! The contract that others rely on is that of [`run_chain`]: a chain's actions on the table
//! explain its completions (`specs/Explains.antt`, and for one request `specs/Answers.antt`).
//! [`refusal_of`] returns the error of a request that is refused whatever is at the slots.
//! [`check`] refuses a submission past the limits, and [`cut`] splits it into chains. Only
//! `request.rt`, `steps.rt` and `intent.rt` distinguish the kinds of requests. Begin reading at
//! `request.rt` and `specs/Answers.antt`, then `steps.rt` and `player.rt`.
#![tactic(auto)]

mod chain;
mod completion;
mod context;
mod entries;
mod fault;
mod file_index;
mod flags;
mod gate;
mod intent;
pub mod laws;
mod player;
mod removal;
mod request;
mod steps;

pub use chain::{Chain, cut};
pub use completion::{Completion, Place};
pub use entries::has_bad_entry;
pub use fault::{CutFault, CutKind, MOST_MEMBERS, check};
pub use file_index::target;
pub use flags::SqeFlags;
pub use gate::{Gate, OpenGate};
pub use intent::{Finding, Intent, answer_of, count_of, intent_by, intent_of};
pub use player::{perform, run_chain};
pub use request::{LONGEST_READ, LONGEST_UPDATE, Op, Request, Target, refusal_of};
