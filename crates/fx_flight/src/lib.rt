//! Calls in flight: logs of calls and answers that overlap, and what makes them legal.
//!
//! A *log* has calls, answers and closes in the order in which one observer saw them. A *flight* is
//! the log with accesses of a table between its events. A log is *legal* if it has a flight.
//! [`fault_of_log`] finds the first event that can't be in a log at all. Begin reading at
//! `event.rt` and `specs/Flight.antt`, then `laws.rt`.
#![tactic(auto)]

mod event;
mod fault;
pub mod laws;

pub use event::LogEvent;
pub use fault::{CallProgress, EventFault, LogFault, fault_of_log};
