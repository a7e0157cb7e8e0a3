//! The limits of the machine, and laws of its lives and flights, over definitions alone. Each is
//! the contract of a function with an empty body.
//!
//! A flight assumes this of the kernel and of the program: a completion comes once and brings its
//! user data back; an open succeeds if and only if it put its file at its slot, and a close if and
//! only if it took a file from its slot; a member of a chain makes its access after that of its
//! predecessor, or makes none; the kernel chooses slots in its allocation range alone, and a slot
//! is adopted where it has put a file; and nobody else writes these slots.
ghost use Rattle.std.specs.Prelude.{◌≡◌, ◌-◌, ◌^◌};
ghost use Rattle.fx_direct.specs.Words.{KINDS, MOST_LIVES, MOST_SLOTS};
ghost use Rattle.fx_direct.specs.Counts.{EachKeyIsBalanced, NothingIsLeftOfALife, KeysAreGivenOnce};
ghost use Rattle.fx_direct.specs.Haste.{ChainIsNotAnOpen, HasteIsWrong, RangeIsTheKernels};
ghost use Rattle.fx_direct.specs.Keys.{KeyBitsComeBack};
ghost use Rattle.fx_direct.specs.Laws.{EachAccessFindsItsOwn, NothingIsLeft};
ghost use Rattle.fx_direct.specs.Lives.{AStopLeavesNothing, EachCloseIsAskedForOnce, NoCloseIsLate, StaleKeysStayStale};
ghost use Rattle.fx_direct.specs.Round.{GoesRound};

/// States that a ring has at most 1,048,576 slots, that a slot has at most 2^40 - 1 lives, and that
/// user data distinguishes 16 kinds of calls.
pub fn limits_are_numbers()
    ensures most_slots { MOST_SLOTS ≡ 1048576 }
    ensures most_lives { MOST_LIVES ≡ 2 ^ 40 - 1 }
    ensures kinds { KINDS ≡ 16 }
{}

/// States that in every flight an open finds its slot empty, and that each request and each close
/// finds the file that the open of its own key installed, or that was adopted under its key. In a
/// chain whose open installed nothing they find an empty slot.
#[tactic(auto, using(crate::proofs::Reach::each_access_finds_its_own))]
pub fn each_access_finds_its_own()
    ensures { EachAccessFindsItsOwn }
{}

/// States that where a slot may be handed out, the kernel's slot is empty and no call is in flight
/// at it, and that where a close may be asked for, no call is in flight at its slot.
#[tactic(auto, using(crate::proofs::Reach::nothing_is_left))]
pub fn nothing_is_left()
    ensures { NothingIsLeft }
{}

/// States that each key is balanced whatever is done: each request that was started under it, or
/// was in its chain, was finished once or is in flight, each user was released once or is one now,
/// and the close of a file that was opened was asked for once, and again for each time that it
/// failed, or the file is there.
pub fn each_key_is_balanced()
    ensures { EachKeyIsBalanced }
{}

/// States that the close of a file is asked for at most once, and again only after each failure.
/// Without a file, only a chain asks for it. Once the life of an installed file was ended, and all
/// its requests and users came back, it was asked for.
pub fn each_close_is_asked_for_once()
    ensures { EachCloseIsAskedForOnce }
{}

/// States that no call of the machine leaves a close that is due and isn't asked for.
#[tactic(auto, using(crate::proofs::Lives::no_close_is_late))]
pub fn no_close_is_late()
    ensures { NoCloseIsLate }
{}

/// States that after a stop no life is left, once each life that was live was ended, each call was
/// completed and each user was released.
#[tactic(auto, using(crate::proofs::Stopping::a_stop_leaves_nothing))]
pub fn a_stop_leaves_nothing()
    ensures { AStopLeavesNothing }
{}

/// States that a slot is handed out only if nothing is left of any of its lives, and under a key
/// that was never given before.
pub fn nothing_is_left_of_a_life()
    ensures { NothingIsLeftOfALife }
{}

/// States that no key is given twice.
pub fn keys_are_given_once()
    ensures { KeysAreGivenOnce }
{}

/// States that once a life is over, no transition under its key is ever possible again.
#[tactic(auto, using(crate::proofs::Lives::stale_keys_stay_stale))]
pub fn stale_keys_stay_stale()
    ensures { StaleKeysStayStale }
{}

/// States that a key and a kind come back from their bits.
pub fn keys_come_back()
    ensures { KeyBitsComeBack }
{}

/// States that a flight with all kinds of moments and transitions exists, so that the laws of
/// flights are not about nothing.
#[tactic(auto, using(crate::proofs::Rounds::goes_round))]
pub fn a_flight_goes_round()
    ensures { GoesRound }
{}

/// States that if a close didn't wait for the requests, there would be a flight in which a request
/// finds the file of another key.
#[tactic(auto, using(crate::proofs::Mistakes::haste_is_wrong))]
pub fn haste_is_wrong()
    ensures { HasteIsWrong }
{}

/// States that if the slot of a chain were free once its open failed, there would be a flight in
/// which the chain's close takes the file of another key.
#[tactic(auto, using(crate::proofs::Mistakes::chain_is_not_an_open))]
pub fn chain_is_not_an_open()
    ensures { ChainIsNotAnOpen }
{}

/// States that if a life were reserved in the ring's allocation range, there would be a flight in
/// which its open finds the file of an open without a key.
#[tactic(auto, using(crate::proofs::Mistakes::range_is_the_kernels))]
pub fn range_is_the_kernels()
    ensures { RangeIsTheKernels }
{}
