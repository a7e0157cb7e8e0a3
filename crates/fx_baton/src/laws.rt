//! The law of each kind of step: if the rule holds before the step, it holds after it, whatever the
//! table and the other passes are. Each is the contract of a function with an empty body.
ghost use Rattle.fx_baton.specs.Laws.{SplitsKeep, JoinsKeep, GrabsKeep, PutsBackKeep};

/// States that splitting a pass off an idle seat keeps the rule.
#[tactic(auto, using(crate::proofs::SeatsKeepRule::may_split))]
pub fn split_keeps_rule()
    ensures { SplitsKeep }
{}

/// States that joining the passes of an idle seat to another idle seat keeps the rule.
#[tactic(auto, using(crate::proofs::SeatsKeepRule::may_join))]
pub fn join_keeps_rule()
    ensures { JoinsKeep }
{}

/// States that a seat with one pass that tries to take the table keeps the rule. If it finds the
/// table at home, it has the table, and its pass has seen the whole history.
pub fn grab_keeps_rule()
    ensures { GrabsKeep }
{}

/// States that a seat with one pass that puts the table back keeps the rule, if the pass's events
/// are a turn.
pub fn give_keeps_rule()
    ensures { PutsBackKeep }
{}
