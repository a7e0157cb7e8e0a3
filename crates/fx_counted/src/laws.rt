//! The law of each kind of step: if the rule holds before the step, it holds after it, whatever the
//! table and the other passes are. A swap has three laws, since it is an installation, a clear or a
//! take. Each law is the contract of a function with an empty body.
ghost use Rattle.std.specs.Prelude.{◌≤◌};
ghost use Rattle.fx_counted.specs.Words.{ℕ, MOST_SLOTS};
ghost use Rattle.fx_counted.specs.Layout.{PlacesAreInside, PlacesAreApart};
ghost use Rattle.fx_counted.specs.Bounds.{WordsAreBounded};
ghost use Rattle.fx_counted.specs.Opens.{OpeningKeeps};
ghost use Rattle.fx_counted.specs.Laws.{SplitsKeep, JoinsKeep, BirthsKeep, LooksKeep, InstallsKeep, ClearsKeep, TakesKeep, RetiresKeep, ReleasesKeep};
ghost use Rattle.fx_counted.specs.Laws.{RestsKeep, BeginsKeep, EndsKeep, AnswersKeep, LoadsKeep, ExchangesKeep, DrawsKeep};

/// States that a table with the words and places of its opening keeps the rule, with one seat that
/// has all passes.
pub fn opening_keeps_rule()
    ensures { OpeningKeeps }
{}

/// States that splitting a pass off an idle seat keeps the rule.
#[tactic(auto, using(crate::proofs::Seats::splits_keep))]
pub fn split_keeps_rule()
    ensures { SplitsKeep }
{}

/// States that joining the passes of an idle seat to another idle seat keeps the rule.
#[tactic(auto, using(crate::proofs::Seats::joins_keep))]
pub fn join_keeps_rule()
    ensures { JoinsKeep }
{}

/// States that an idle pass that stores 2^32 in the node word of its next number keeps the rule,
/// and has the number's place.
pub fn birth_keeps_rule()
    ensures { BirthsKeep }
{}

/// States that an idle pass that adds 1 to a slot's word keeps the rule, and holds the file that
/// the word names.
pub fn look_keeps_rule()
    ensures { LooksKeep }
{}

/// States that a pass that swaps the word of the file that it places into a slot keeps the rule,
/// and has to retire the file that was there.
pub fn install_keeps_rule()
    ensures { InstallsKeep }
{}

/// States that an idle pass that swaps 0 into a slot's word for an update keeps the rule, and has
/// to retire the file that was there.
pub fn clear_keeps_rule()
    ensures { ClearsKeep }
{}

/// States that an idle pass that swaps 0 into a slot's word for a close keeps the rule, and has to
/// retire the file that was there.
pub fn take_keeps_rule()
    ensures { TakesKeep }
{}

/// States that a pass that subtracts 2^32 minus the takes from the node word of the file that it
/// removed keeps the rule. If it finds exactly that number, the file has no holds and is closed,
/// and the pass has it; otherwise some pass holds it.
pub fn retire_keeps_rule()
    ensures { RetiresKeep }
{}

/// States that a pass that subtracts 1 from the node word of the file that it holds keeps the rule.
/// If it finds 1, the file was retired and this was its last hold: the file is closed, and the pass
/// has it.
pub fn release_keeps_rule()
    ensures { ReleasesKeep }
{}

/// States that a pass that stores 0 in the node word of a number whose file is closed, or was never
/// installed, keeps the rule, and that the number's place is home.
pub fn rest_keeps_rule()
    ensures { RestsKeep }
{}

/// States that a pass outside a change that adds 2^32 to the control word keeps the rule.
pub fn begin_keeps_rule()
    ensures { BeginsKeep }
{}

/// States that a pass in a change that subtracts 2^32 minus the difference that it made from the
/// control word keeps the rule.
pub fn end_keeps_rule()
    ensures { EndsKeep }
{}

/// States that a pass in a change that subtracts 2^32 from the control word keeps the rule. If the
/// word says so, every slot of the range was full.
pub fn answer_keeps_rule()
    ensures { AnswersKeep }
{}

/// States that a pass in a change that loads a word keeps the rule.
pub fn load_keeps_rule()
    ensures { LoadsKeep }
{}

/// States that a pass in a change that exchanges the word of an empty slot of the range for that of
/// the file that it places keeps the rule. If the exchange succeeds, the slot was empty.
pub fn exchange_keeps_rule()
    ensures { ExchangesKeep }
{}

/// States that an idle pass that adds 1 to the draw word keeps the rule, and gets the next chain or
/// `None`.
pub fn draw_keeps_rule()
    ensures { DrawsKeep }
{}

/// States that while the rule holds, no word overflows. The takes of a slot and all look-ups that
/// are left are at most 2^24 together. Releases alone don't take a file's node word to 0 before the
/// file is retired. The draw word is at most the number of chains plus 16. At most 16 changes are
/// in flight, and the lower half of the control word is between 65,520 and 65,808.
pub fn words_are_bounded()
    ensures { WordsAreBounded }
{}

/// States that each word and each open file of a table of `size` slots, whose chains have `numbers`
/// file numbers together, has its place inside the table's memory.
#[tactic(auto, using(crate::proofs::Places::inside))]
pub fn places_are_inside()
    ensures { (size numbers : ℕ) → size ≤ MOST_SLOTS → PlacesAreInside size numbers }
{}

/// States that different words have different places, and that the files of different numbers do
/// too.
#[tactic(auto, using(crate::proofs::Places::apart))]
pub fn places_are_apart()
    ensures { (size numbers : ℕ) → size ≤ MOST_SLOTS → PlacesAreApart size numbers }
{}
