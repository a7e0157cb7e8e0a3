//! The texts that a script can print, and the answers that a request of it can give, if no
//! allocation fails.
#![tactic(auto)]

mod layers;
mod next;
mod request_answers;
mod rests;
mod rings;
mod texts;
mod walk;

pub use request_answers::{RequestAnswers, Said, may};
pub use texts::{AllTexts, each_found_text_is_a_text, texts_of};
pub use walk::Past;
