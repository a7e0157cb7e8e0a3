//! A submission and its report.
use fx_base::{Catalogue, Closed};
use fx_chain::{Completion, Request};

/// A submission and its report, whose correctness is to be checked.
#[derive(Drop)]
pub struct SubmissionReport<'a> {
    /// The files that may be opened.
    pub catalogue: &'a Catalogue,
    /// The number of submissions that were accepted before it.
    pub submissions: u32,
    /// The requests. No request has a fault ([`fx_chain::check`]).
    pub requests: &'a [Request],
    /// The completions, in order of place.
    pub completions: &'a [Completion],
    /// The files that were closed, in order of mark.
    pub closes: &'a [Closed],
}
