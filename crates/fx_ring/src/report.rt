//! The answers of a submission: a report or a fault.
use fx_base::CloseList;
use fx_chain::{Completion, CutFault};

/// The reason why a submission is refused. The first that applies is reported, in this order. The
/// ring is then as before.
#[derive(Clone, Copy, Debug, PartialEq, Eq)]
pub enum SubmitFault {
    /// The number of workers is not from 1 to 16.
    Workers,
    /// A request has a fault.
    Cut(CutFault),
    /// The ring has accepted 65,535 submissions.
    TooMany,
    /// Memory was refused.
    NoMemory,
}

/// The result of an accepted submission (io_uring_enter(2), "CQE").
#[derive(Drop)]
pub struct Report {
    /// The number of the submission among those that the ring accepted, from 1.
    pub submission: u32,
    /// One completion for each request, in order of place.
    pub completions: Vec<Completion>,
    /// The files that were closed, in order of mark.
    pub closes: CloseList,
}
