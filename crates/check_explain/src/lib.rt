//! Explains a text to a person: a wrong line with the lines that would be valid there and the
//! reason, lines that contradict each other, and a legal history. No verdict rests on this advice.
//! It is proved only that these functions are memory-safe and terminate.
#![tactic(auto)]

mod answers;
mod broken;
mod case;
mod claims;
mod complaint;
mod contradiction;
mod facts;
mod history;
mod lines;
mod question;
mod words;
mod wrong_answer;
mod wrong_files;

pub use broken::push_why_broken;
pub use case::{Case, access_places};
pub use complaint::Complaint;
pub use facts::Facts;
pub use history::History;
pub use lines::{AskedLine, Lines, asked_lines, cut_word};
pub use question::{Question, TextPlace};
pub use words::{Words, sign_before};
