//! One order: whatever the schedule, a submission's completions and closes are those of its
//! requests done one at a time, in some order that keeps each chain's (an update counts entry by
//! entry).
//!
//! The contract that others rely on is [`laws::each_history_is_an_order`]. [`is_one_order`] decides
//! whether an order of the requests leads to a report. Begin reading at `specs/Order.antt`, then
//! `laws.rt` and `report.rt`.
#![tactic(auto)]

mod access;
mod chain;
pub mod laws;
mod listed_order;
mod order;
mod report;
mod request;
mod ring_slots;
mod slots;
mod submission;
mod submission_report;

pub use access::{Access, ChainAccess};
pub use listed_order::{AccessPlace, Order};
pub use order::{are_closed, make_all};
pub use report::{is_one_order, slots_left};
pub use request::{OrderSetting, positions_made};
pub use ring_slots::RingSlots;
pub use slots::Slots;
pub use submission::{OrderedRequests, are_chains_done, members};
pub use submission_report::SubmissionReport;
