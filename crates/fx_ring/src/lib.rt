//! A ring in memory: a catalogue, the registered file table, and the calls on them, which are
//! registrations, updates and submissions.
//!
//! The contract that other crates use is the one of [`Ring::submit`], clause `one_history`: the
//! report of a submission and the table afterwards are those of one legal history of a table of one
//! thread, on any number of workers (`IsOneHistory` in `specs/Submission.antt`). Contracts see a
//! ring by `ring_of` (`specs/Ring.antt`).
//!
//! Begin with `ring.rt` (the type), then `registration.rt` (calls between submissions),
//! `submission.rt` (`submit`) and `laws.rt` (what the history of a submission says about files).
#![tactic(auto)]

mod call_refusal;
mod crew;
pub mod laws;
mod list;
mod needs;
mod open_ring;
mod outcome;
mod play;
mod registration;
mod report;
mod ring;
mod slots;
mod submission;
mod worker;

pub use call_refusal::{register_refusal, sparse_refusal, update_refusal};
pub use list::{are_bad_tags, has_bad_file, tag_at};
pub use open_ring::OpenRing;
pub use report::{Report, SubmitFault};
pub use ring::{MOST_REGISTRATIONS, MOST_SUBMISSIONS, Ring};
