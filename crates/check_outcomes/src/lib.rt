//! The outcomes of a submission if no allocation fails: the answers of a request, the rings after
//! it, its reports. Each has an order of accesses that leads to it. If `are_all` is true, a list is
//! proved to be complete. It rests on the accesses that a request makes, and the answer that it has
//! then.
#![tactic(auto)]

mod answering;
mod closed;
mod explore;
mod found;
pub mod laws;
mod outcomes;
mod parts;
mod player;
mod state;
mod submission;
mod turns;
mod way_report;

pub use answering::next_accesses;
pub use found::push_file;
pub use outcomes::{
    PossibleAnswer, PossibleAnswers, PossibleReport, PossibleReports, may_answer, may_report,
};
pub use submission::{Progress, chain_accesses, settle, step};
pub use way_report::removed_after;
