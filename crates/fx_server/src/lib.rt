//! The table that never has to be closed, for C: workers, each one pass of the table together with
//! the table. The last worker that is closed ends the table. A worker can go to another thread.
//! `fx_server_c` is the static library of these calls.
//!
//! Each call's clause says which events it adds to the pass, as the table's own clauses do
//! (`fx_table`, `specs/Calls.antt`): which file was at the slot, and which file is returned to be
//! closed. Files are told apart by their tags. Begin reading at `worker.rt` and
//! `specs/Workers.antt`, then `handle.rt` and `specs/Answers.antt`.
#![tactic(auto)]

mod answers;
mod by_key;
pub mod codes;
mod crossing;
mod file_numbers;
mod handle;
mod installing;
pub mod laws;
mod opening;
mod placing;
mod shared;
mod worker;

pub use answers::CoreOutcome;
pub use handle::{Handle, Opaque, WorkerPlace};
pub use placing::open_places;
pub use worker::TableWorker;
