//! Laws of flights, over definitions alone. Each is the contract of a function with an empty body.

ghost use Rattle.fx_flight.specs.Laws.{EachAnsweredChainIsDone, EachBeginningIsLegal, EachCallIsInItsTime, EachClosedFileWasRemoved};
ghost use Rattle.fx_flight.specs.Laws.{EachOrderIsAFlight, NoSecondClose};
ghost use Rattle.fx_flight.specs.Whole.{EachBeginningIsLegalByWholeUpdates, EachLogOfWholeUpdatesIsLegal};

/// States that each beginning of a legal log is legal. So a log that isn't legal has a first event
/// with which no flight is left.
#[tactic(auto, using(crate::proofs::Beginnings::beginning))]
pub fn each_beginning_is_legal()
    ensures { EachBeginningIsLegal }
{}

/// States that once all answers of a chain were seen, its accesses and answers are those of a chain
/// that is done, as in a submission.
#[tactic(auto, using(crate::proofs::InTime::answered_is_done))]
pub fn each_answered_chain_is_done()
    ensures { EachAnsweredChainIsDone }
{}

/// States that if a call is over before another one begins, all its accesses come before all
/// accesses of the other one.
pub fn each_call_is_in_its_time()
    ensures { EachCallIsInItsTime }
{}

/// States that a submission is a legal log, whatever order of its requests it follows: all its
/// calls come first, then all answers, then all closes.
pub fn each_order_is_a_flight()
    ensures { EachOrderIsAFlight }
{}

/// States that no legal log closes a file twice.
pub fn no_second_close()
    ensures { NoSecondClose }
{}

/// States that in a flight no file is closed before an access took it from its slot.
#[tactic(auto, using(crate::proofs::Beginnings::closed_was_removed))]
pub fn each_closed_file_was_removed()
    ensures { EachClosedFileWasRemoved }
{}

/// States that a log that is legal by whole updates is legal.
pub fn each_log_of_whole_updates_is_legal()
    ensures { EachLogOfWholeUpdatesIsLegal }
{}

/// States that each beginning of a log that is legal by whole updates is legal by whole updates.
pub fn each_beginning_is_legal_by_whole_updates()
    ensures { EachBeginningIsLegalByWholeUpdates }
{}
