//! Decides whether a script may print a text, whoever wrote the text, and whether some order of a
//! submission's requests leads to a report, for instance a kernel's. The verdicts `Legal` and
//! `NotLegal` are proved.
#![tactic(auto)]

mod answered;
mod chain_claims;
mod command;
mod judgement;
mod judging;
mod kept;
mod part;
mod places;
mod play;
mod recorded;
mod refuted;
mod request_claims;
mod strands;
mod submission;

pub use judgement::{Break, Fault, Judgement, Reason, Verdict};
pub use judging::judge_submission;
pub use play::{judge, judge_from};
pub use recorded::Recorded;
