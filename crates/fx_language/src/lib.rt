//! The language of scripts: which bytes are a script, what it says, and on which line its first
//! fault is.
//!
//! The contract that others rely on is that of [`Script::read`], which returns what
//! `specs/Script.antt` (`reading_of`) says of the bytes. Begin reading at `specs/Line.antt` and
//! `script.rt`.
#![tactic(auto)]

mod command;
mod fault;
pub mod laws;
mod limits;
mod line;
mod list;
mod number;
mod parts;
mod reader;
mod request;
mod script;
mod words;

pub use command::Command;
pub use fault::{ScriptError, ScriptFault};
pub use limits::{LARGEST_NUMBER, LARGEST_TAG, LONGEST_LINE, LONGEST_SCRIPT};
pub use number::number_up_to;
pub use script::Script;
