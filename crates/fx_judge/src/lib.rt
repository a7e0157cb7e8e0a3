//! The judge for C: decides whether a script may print a text, lists the texts that it may print,
//! and judges logs of calls in flight. The contract of each call says what its number means.
//! `fx_judge_c` is the static library of these calls. C's duties are in `include/yachtjudge.h`.
#![tactic(auto)]

mod arrays;
pub mod codes;
mod events;
mod files;
mod flights;
mod judge;
mod limits;
mod logs;
mod note;
mod outcomes;
mod steps;
mod unread;

pub use events::{YachtEvent, YachtFile, YachtRequest};
pub use flights::{YachtJudgement, judge_log};
pub use judge::{YachtVerdict, judge_text};
pub use limits::{limits_of, log_limits_of};
pub use logs::CallLog;
pub use outcomes::{YachtTexts, list_texts};
pub use steps::{YachtPoint, YachtStep};
