//! The static library of `fx_server`: an export for each call of a worker. C has one pointer for
//! each worker. Begin reading at `exports.rt` and at `specs/Answers.antt` of `fx_server`.
#![tactic(auto)]

mod exports;
