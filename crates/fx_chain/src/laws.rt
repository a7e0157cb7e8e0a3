//! Laws of runs, faults and chains. Each is the contract of a function with an empty body.

ghost use Rattle.std.specs.Prelude.{◌≡◌, List, ◌∷◌, ◌++◌, MatchOption};
ghost use Rattle.fx_chain.specs.Faults.{HasNoFault, IsFirstFault, fault_of};
ghost use Rattle.fx_chain.specs.Operation.{Asked};
ghost use Rattle.fx_chain.specs.OtherNumbers.{ExplainsByAnyNumbers, NumbersFilesAsAsked};
ghost use Rattle.fx_chain.specs.Runs.{AreTheOnlyRuns, IsInRun, runs_of};

use crate::fault::MOST_MEMBERS;
use crate::request::{LONGEST_READ, LONGEST_UPDATE};
use fx_table::{CHAIN_NUMBERS, MAX_CHAINS};

/// States the limits of a submission as numbers: the chains of a submission, the members of a chain
/// and the files that it installs, the bytes of a read, and the entries of an update.
pub fn limits_are_numbers()
    ensures chains { MAX_CHAINS ≡ 1023 }
    ensures members { MOST_MEMBERS ≡ 16 }
    ensures installs { CHAIN_NUMBERS ≡ 64 }
    ensures read { LONGEST_READ ≡ 4096 }
    ensures update { LONGEST_UPDATE ≡ 16 }
{}

/// States that the runs of a list of requests are runs, and that there are no others.
pub fn runs_are_the_only_ones()
    ensures { (requests : List Asked) → AreTheOnlyRuns requests (runs_of requests) }
{}

/// States that the requests that a fault depends on, the linking ones at the end of those before
/// the request, are the earlier members of the request's own run.
#[tactic(auto, using(crate::proofs::Runs::is_in_run))]
pub fn each_request_is_in_its_run()
    ensures { (front : List Asked) (request : Asked) (behind : List Asked)
        → IsInRun front request (runs_of (front ++ request ∷ behind)) }
{}

/// States that the fault of a submission is that of its first request with a fault, and that no
/// request has one if the submission has none.
#[tactic(auto, using(crate::proofs::Accepted::the_first_fault))]
pub fn fault_is_the_first()
    ensures { (requests : List Asked)
        → MatchOption (fault_of requests) (HasNoFault requests) (IsFirstFault requests) }
{}

/// States that a chain's answers don't depend on the numbers of the files.
pub fn chains_answer_by_any_numbers()
    ensures { ExplainsByAnyNumbers }
{}

/// States that a chain uses no more file numbers than its requests ask for.
#[tactic(auto, using(crate::proofs::OtherNumbers::few_given))]
pub fn chains_give_numbers_as_asked()
    ensures { NumbersFilesAsAsked }
{}
