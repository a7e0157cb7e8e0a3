//! The limit of a table, and laws of histories, which follow from the model's steps and legal
//! histories alone. Each is the contract of a function with an empty body.

ghost use Rattle.std.specs.Prelude.{◌≡◌};
ghost use Rattle.fx_plain.specs.Laws.{NoCloseWhileHeld, ClosedAtMostOnce, EveryRemovedFileIsClosed};
ghost use Rattle.fx_plain.specs.Laws.{EveryFileWasThereOrInstalled, OpeningIsStart};
ghost use Rattle.fx_plain.specs.Reopening.{LegalAfter, OpeningIsAtRest, StaysAtRest, OpenedAnew};
ghost use Rattle.fx_plain.specs.declared.table.TheConstants.{MOST_SLOTS};

/// States that a table has at most 256 slots.
pub fn limits_are_numbers()
    ensures most_slots { MOST_SLOTS ≡ 256 }
{}

/// States that a file that a pass has looked up isn't closed before the pass releases it.
pub fn no_close_while_held()
    ensures { NoCloseWhileHeld }
{}

/// States that a file is closed at most once.
#[tactic(auto, using(crate::proofs::LawHolds::closed_at_most_once))]
pub fn closed_at_most_once()
    ensures { ClosedAtMostOnce }
{}

/// States that in a settled state, where no file has a hold and none waits for its close, each file
/// that was at a slot at the start or was installed since is either still at a slot and was never
/// closed, or at no slot and was closed once.
#[tactic(auto, using(crate::proofs::LawFiles::every_removed_file_is_closed))]
pub fn every_removed_file_is_closed()
    ensures { EveryRemovedFileIsClosed }
{}

/// States that if no file waits for its close at the start, each file that was closed, or is at a
/// slot at the end, was at a slot at the start or was installed since. So a property of all those
/// files holds for every file of the table.
pub fn every_file_was_there_or_installed()
    ensures { EveryFileWasThereOrInstalled }
{}

/// States that the laws above apply from the state in which passes begin.
pub fn opening_is_start()
    ensures { OpeningIsStart }
{}

/// States that a table that is opened is at rest: the laws apply from its state, as in
/// [`opening_is_start`], and it has no file past its slots.
pub fn opening_is_at_rest()
    ensures { OpeningIsAtRest }
{}

/// States that a table at rest is at rest again whenever its history leads to a settled state.
#[tactic(auto, using(crate::proofs::Prepared::stays_at_rest))]
pub fn a_table_comes_to_rest()
    ensures { StaysAtRest }
{}

/// States that what happens to a table at rest may also happen to a table that is opened with its
/// files: numbers are only names.
#[tactic(auto, using(crate::proofs::OpenedAnew::opened_anew))]
pub fn a_later_part_may_open_a_table()
    ensures { OpenedAnew }
{}

/// States that if no pass holds a file, the continuation of a legal history is legal from the state
/// reached so far.
pub fn what_follows_is_legal()
    ensures { LegalAfter }
{}
