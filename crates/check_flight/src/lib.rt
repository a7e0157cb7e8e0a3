//! The judge of logs of calls in flight: whether a log has a flight. All states that flights reach
//! are followed from event to event, and if none is left, the log isn't legal.
//!
//! Begin reading at `specs/States.antt` and `specs/Refutations.antt`, then `laws.rt` and
//! `verdict.rt`.
#![tactic(auto)]

mod act;
mod by_slot;
mod call;
mod explore;
mod front;
mod judged;
pub mod laws;
mod limits;
mod log;
mod made;
mod passage;
mod plan;
mod player;
mod positions;
mod propose;
mod reached;
mod refute;
mod search;
mod slot_run;
mod state;
mod step;
mod turn;
mod verdict;
mod wrong;

pub use limits::LogLimits;
pub use verdict::{FlightVerdict, judge_events};
