//! The printed lines of a ring's answers: results, completions, closed files and tags.
//!
//! Others rely on the contracts that equate each text with one of `specs/Text.antt`, above all that
//! of [`submission_text`]. Begin reading there, then at `text.rt`.
#![tactic(auto)]

mod digits;
mod text;

pub use digits::push_number;
pub use text::{
    push_completion, push_mark, push_place, refused_line, result_line, submission_text,
    teardown_text, too_many_line, with_closes,
};
