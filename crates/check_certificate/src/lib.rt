//! Certificates: short proofs that a beginning of a log has no flight.
//!
//! A certificate is a list of steps. Each step adds an order of two points in time that every
//! flight keeps, until a point comes before itself. A proposer finds the steps by any search;
//! [`is_refuted`] checks them. Begin reading at `certificate.rt` and `specs/Times.antt`.
#![tactic(auto)]

mod absence;
mod answers;
mod beginning;
mod certificate;
mod contents;
mod cut;
mod events;
mod evidence;
mod exclusion;
mod holding;
mod known;
mod landing;
mod premises;
mod refuted;
mod rules;
mod supposed;
mod taking;
mod walk;

pub use answers::is_impossible;
pub use certificate::{Holding, OnlyFile, Point, PointOrder, Step};
pub use contents::contents_of;
pub use cut::is_cut_wrongly;
pub use events::{was_closed, was_freed};
pub use evidence::{Evidence, evidence_of};
pub use refuted::is_refuted;
