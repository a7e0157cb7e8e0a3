//! Laws of closed lists of states, each the contract of a function that does nothing.
ghost use Rattle.check_outcomes.specs.Nodes.{EachOutcomeIsListed};
ghost use Rattle.check_outcomes.specs.Reports.{EachReportIsListed};

/// States that a closed list of states has every outcome of a submission if no allocation fails. A
/// list is closed if it has the submission's first state, and each state that an access of a chain
/// leads to, if the chain has its turn and isn't idle. Parts have their turns one after another. If
/// nothing but reads is left of a part, so have its chains. The answer at a place is then one of
/// those given on the way, and the ring that is left is that of a listed state where each chain is
/// idle. An idle chain can have reads left, which change no slot.
pub fn each_outcome_is_listed()
    ensures { EachOutcomeIsListed }
{}

/// States that a closed list of states has each report of a submission. Such a list has the first
/// state of the submission and each state that an access leads to, with the answers and the removed
/// files on the way. If no allocation fails, each report of the submission is that of a listed
/// state where no chain has an access left: the same answers, the same closed files in any order,
/// the same ring.
#[tactic(auto, using(crate::proofs::RecordedStates::each_report_is_listed))]
pub fn each_report_is_listed()
    ensures { EachReportIsListed }
{}
