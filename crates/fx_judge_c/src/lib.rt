//! The static library of `fx_judge`: an export for each call. Begin reading at `exports.rt` and at
//! `specs/Verdicts.antt` of `fx_judge`.
#![tactic(auto)]

mod exports;
