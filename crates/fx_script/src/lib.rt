//! Running scripts: a run reads a script, plays it on a ring, and prints the result of each
//! command.
//!
//! The contract that others rely on is that of [`run`]: its output is a text of the script
//! (`specs/Play.antt`), or it returns the first fault. The language is in `fx_language` and the
//! printed lines are in `fx_print`; both are exported here. Begin reading at `specs/Play.antt`,
//! then `runner.rt` and `player.rt`.
#![tactic(auto)]

pub mod laws;
mod played_ring;
mod player;
mod prints;
mod runner;

pub use fx_language::{
    Command, LARGEST_NUMBER, LARGEST_TAG, LONGEST_LINE, LONGEST_SCRIPT, Script, ScriptError,
    ScriptFault,
};
pub use fx_print::{refused_line, result_line, teardown_text, too_many_line, with_closes};
pub use player::play;
pub use prints::report_text;
pub use runner::{PlayFault, run};
