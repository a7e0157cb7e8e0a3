//! Reasons why a log of calls in flight isn't legal: a search for certificates, and their steps.
//!
//! [`explain`] looks for the reason why a beginning of a log has no flight. The search isn't
//! proved; the certificate that it proposes is checked by `check_certificate`. Begin reading at
//! `reason.rt`, then `window.rt` and `problem.rt`.
#![tactic(auto)]

mod assembly;
mod direct;
mod graph;
mod holding;
mod problem;
mod reading;
mod reason;
mod removals;
mod settled;
mod shown;
mod supposing;
mod taking;
mod window;

pub use assembly::ReasonStep;
pub use reason::{LogReason, explain};
