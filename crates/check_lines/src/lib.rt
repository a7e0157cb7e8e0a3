//! Parses the printed lines of a submission's report: each printed report is parsed, and each
//! parsed report was printed so. Makes calls between two submissions on slots whose files are
//! known: what a call prints, the files that it leaves at the slots, and the files that it closes.
#![tactic(auto)]

mod call_answer;
mod call_head;
pub mod laws;
mod report_lines;

pub use call_answer::{CallAnswer, call, close_in_order, copy_of, files_at};
pub use call_head::{accepted_in, is_accepted, memory_word};
pub use report_lines::{ClosedLine, ReportLines, place_of, read_report};
