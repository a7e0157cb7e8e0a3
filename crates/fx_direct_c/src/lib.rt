//! The static library of `fx_direct`: an export for each call of a machine. C has one pointer for
//! each machine. Begin reading at `exports.rt` and at `specs/Answers.antt`.
#![tactic(auto)]

mod answers;
mod codes;
mod exports;
mod handle;
