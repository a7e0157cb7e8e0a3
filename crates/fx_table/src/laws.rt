//! The limits of every shared table, as numbers, and laws that follow from the contract of a shared
//! table alone (this project's own). Each is the contract of a function with an empty body.
ghost use Rattle.std.specs.Prelude.{◌≡◌};
ghost use Rattle.fx_table.specs.Showing.{CallsFollowWhatWasShown};
ghost use Rattle.fx_table.specs.Finding.{LookUpFindsTheChange, LookUpFindsThePut};
ghost use Rattle.fx_table.specs.Finding.{LookUpFindsTheRemoval};
ghost use Rattle.fx_table.specs.Finding.{FullFollowsAnInstallation};
ghost use Rattle.fx_table.specs.Laws.{CallsCompose, ChainHasOnePass, CallsKeepDrawnChains};
ghost use Rattle.fx_table.specs.Laws.{ChainIsPartOfItsPass};
ghost use Rattle.fx_table.specs.declared.limits.TheConstants.{MAX_CHAINS, MAX_PASSES, PASS_LOOKS};
ghost use Rattle.fx_table.specs.declared.limits.TheConstants.{FIRST_CHAIN_NUMBER, CHAIN_NUMBERS};

/// States that a table plays at most 1,023 chains on at most 16 passes, each with 1,048,576
/// look-ups, and that each chain has 64 file numbers, the first chain's from 256 on.
pub fn limits_are_numbers()
    ensures max_chains { MAX_CHAINS ≡ 1023 }
    ensures max_passes { MAX_PASSES ≡ 16 }
    ensures pass_looks { PASS_LOOKS ≡ 1048576 }
    ensures first_chain_number { FIRST_CHAIN_NUMBER ≡ 256 }
    ensures chain_numbers { CHAIN_NUMBERS ≡ 64 }
{}

/// States that two calls in a row add what each of them adds.
pub fn calls_compose()
    ensures { CallsCompose }
{}

/// States that a call's events follow all that its pass had seen or learned before the call.
#[tactic(auto, using(crate::proofs::Calls::follows_shown))]
pub fn calls_follow_what_was_shown()
    ensures { CallsFollowWhatWasShown }
{}

/// States that a look-up after a change of its slot finds what the change left, or what a later
/// change left.
pub fn a_look_up_finds_the_change()
    ensures { LookUpFindsTheChange }
{}

/// States that a look-up after a put at its slot finds the new file, if no action between changes
/// the slot.
#[tactic(auto, using(crate::proofs::Finding::finds_the_put))]
pub fn a_look_up_finds_the_put()
    ensures { LookUpFindsThePut }
{}

/// States that a look-up after a removal at its slot finds no file, if no action between changes
/// the slot.
#[tactic(auto, using(crate::proofs::Finding::finds_the_removal))]
pub fn a_look_up_finds_the_removal()
    ensures { LookUpFindsTheRemoval }
{}

/// States that a call which finds every slot full after a removal at one of them follows an
/// installation there.
pub fn full_follows_an_installation()
    ensures { FullFollowsAnInstallation }
{}

/// States that among the passes of a closed table at most one drew a given chain.
pub fn chain_has_one_pass()
    ensures { ChainHasOnePass }
{}

/// States that a call acts for a drawn chain, if the pass's earlier actions did and its last chain
/// is a drawn one.
pub fn calls_keep_drawn_chains()
    ensures { CallsKeepDrawnChains }
{}

/// States that a chain's events in the history of a closed table are those that the pass which drew
/// it made for it.
pub fn chain_is_part_of_its_pass()
    ensures { ChainIsPartOfItsPass }
{}
