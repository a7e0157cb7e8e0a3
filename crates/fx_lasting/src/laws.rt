//! The law of each kind of step: where the rule holds before the step, it holds after it, whatever
//! the table and the other passes are.
ghost use Rattle.std.specs.Prelude.{◌≡◌, ◌≤◌};
ghost use Rattle.fx_lasting.specs.Words.{ℕ, last_node, MOST_SLOTS, MOST_NODES, MOST_PASSES, MOST_INSTALLING};
ghost use Rattle.fx_lasting.specs.Bounds.{WordsAreBounded};
ghost use Rattle.fx_lasting.specs.holds.Holds.{NodesAreOfOneFile, HeldNodesNameFiles};
ghost use Rattle.fx_lasting.specs.slots.ByKey.{KeysAreOfOneFile, KeysComeBack};
ghost use Rattle.fx_lasting.specs.slots.Current.{CurrentFileFollowsTheChange, OldFileWasReplaced};
ghost use Rattle.fx_lasting.specs.life.Layout.{PlacesAreInside, PlacesAreApart, LabelsAreApart, NodesAreInOneLine};
ghost use Rattle.fx_lasting.specs.life.Opens.{OpeningKeeps};
ghost use Rattle.fx_lasting.specs.WholeHistory.{HasOneHistory, RemovedFilesHaveUsers};
ghost use Rattle.fx_lasting.specs.Laws.{GlancesKeep, ListsKeep, AnnouncesKeep, ConfirmsKeep, WithdrawsKeep, TakesOnceKeep, HeatsKeep, StepsDownKeep};
ghost use Rattle.fx_lasting.specs.Laws.{LettingGoKeeps, SeeksKeep, BirthsKeep, RecallsTagKeep, TagsKeep, NumbersKeep, ReadsTagKeep, ReadsNumberKeep};
ghost use Rattle.fx_lasting.specs.Laws.{RestsKeep, ParksKeep, ResumesKeep, SettlesKeep, SkimsKeep, VisitsKeep, ChargesKeep, FinishesKeep};
ghost use Rattle.fx_lasting.specs.Laws.{RetiresKeep, LowersKeep, ChecksKeep, BreaksKeep, RaisesKeep, BeginsKeep, AsksKeep, CountsKeep, DecidesKeep};
ghost use Rattle.fx_lasting.specs.Laws.{PeeksKeep, SplitsKeep, JoinsKeep, TakesOutKeep, SwapsOutKeep, InstallsKeep, ExchangesKeep, SeesKeep};
ghost use Rattle.fx_lasting.specs.Laws.{SwapsHeldKeep, TakesHeldKeep, AimsKeep, TakesBesideKeep, ReplacesHeldKeep, EndsItsHoldKeep};

use crate::kinds::{
    Aiming, Announcing, Asking, Beginning, Birth, Breaking, Charging, Checking, Clearing,
    Confirming, Counting, Deciding, EndingHold, Exchanging, Finishing, Glancing, HeatingUp,
    Installing, Letting, Listing, Lowering, Numbering, OneHistory, Parking, Peeking, Raising,
    ReadingNumber, ReadingTag, RecallingTag, ReplacingHeld, Resting, Resuming, Retire, Seeing,
    Seeking, Settling, Skimming, SteppingDown, Swapping, SwappingHeld, Tagging, Taking,
    TakingBeside, TakingHeld, Visiting, Withdrawing,
};
use crate::view::{Start, View};
use atomic_table::{Join, Play, Split, TableRule};
use fx_base::OpenFile;
use table_seats::{Deal, Gather};

/// States that a table has at most 1,048,576 slots and at most 1,024 passes, that at most 64 of
/// these install files, and that a slot's word has room for the number of each node.
pub fn limits_are_numbers()
    ensures most_slots { MOST_SLOTS ≡ 1048576 }
    ensures most_passes { MOST_PASSES ≡ 1024 }
    ensures most_installing { MOST_INSTALLING ≡ 64 }
    ensures nodes_fit { MOST_NODES ≤ last_node }
{}

/// A table that begins with the words and places of its opening keeps the rule, with one seat that
/// has all passes.
pub fn opening_keeps_rule()
    ensures { OpeningKeeps
        ⟦<OneHistory as TableRule<Option<OpenFile>, View, Start>>⟧.holds
        ⟦<OneHistory as TableRule<Option<OpenFile>, View, Start>>⟧.first }
{}

/// A pass that has no file and loads a slot's word keeps the rule.
pub fn glance_keeps_rule()
    ensures { GlancesKeep ⟦<Glancing as Play<Option<OpenFile>, View>>⟧.then }
{}

/// A pass that isn't listed and adds its bit to the list keeps the rule, and is listed.
#[tactic(auto, using(crate::proofs::hold_lemmas::Listing::lists_keep))]
pub fn list_keeps_rule()
    ensures { ListsKeep ⟦<Listing as Play<Option<OpenFile>, View>>⟧.then }
{}

/// A listed pass that stores the name of a hot slot's node in its hold word keeps the rule.
pub fn announce_keeps_rule()
    ensures { AnnouncesKeep ⟦<Announcing as Play<Option<OpenFile>, View>>⟧.then }
{}

/// A pass that announced a node and loads the slot's word again keeps the rule. Where the slot is
/// hot and names the node still, it holds the file.
pub fn confirm_keeps_rule()
    ensures { ConfirmsKeep ⟦<Confirming as Play<Option<OpenFile>, View>>⟧.then }
{}

/// A pass that swaps its announcement for 0 keeps the rule, and owes the charge that it found.
pub fn withdraw_keeps_rule()
    ensures { WithdrawsKeep ⟦<Withdrawing as Play<Option<OpenFile>, View>>⟧.then }
{}

/// A listed pass that adds 1 to a slot's word keeps the rule, and holds the file that the word
/// names.
pub fn take_keeps_rule()
    ensures { TakesOnceKeep ⟦<Taking as Play<Option<OpenFile>, View>>⟧.then }
{}

/// A listed pass that adds 2^21 to the word of a slot that had its takes when it took there keeps
/// the rule. No carry leaves the 11 bits of the slot's heat.
pub fn heat_keeps_rule()
    ensures { HeatsKeep ⟦<HeatingUp as Play<Option<OpenFile>, View>>⟧.then }
{}

/// A pass that swaps the name of the node that it guards for 0 keeps the rule.
pub fn step_down_keeps_rule()
    ensures { StepsDownKeep ⟦<SteppingDown as Play<Option<OpenFile>, View>>⟧.then }
{}

/// A pass that subtracts a charge or a take from the word of a node keeps the rule. Where it finds
/// 2, the file is closed and with the pass.
pub fn let_go_keeps_rule()
    ensures { LettingGoKeeps ⟦<Letting as Play<Option<OpenFile>, View>>⟧.then }
{}

/// A pass that loads the word of a node of its stock keeps the rule, and one of the stock is free.
pub fn seek_keeps_rule()
    ensures { SeeksKeep ⟦<Seeking as Play<Option<OpenFile>, View>>⟧.then }
{}

/// A pass that stores the first word of a file in that of a free node of its stock keeps the rule,
/// and has its place.
pub fn birth_keeps_rule()
    ensures { BirthsKeep ⟦<Birth as Play<Option<OpenFile>, View>>⟧.then }
{}

/// A pass that loads the tag of the node on which it places a file keeps the rule: that tag is
/// written.
pub fn recall_keeps_rule()
    ensures { RecallsTagKeep ⟦<RecallingTag as Play<Option<OpenFile>, View>>⟧.then }
{}

/// A pass that stores the tag of the file that it places in the word for it keeps the rule.
pub fn tag_keeps_rule()
    ensures { TagsKeep ⟦<Tagging as Play<Option<OpenFile>, View>>⟧.then }
{}

/// A pass that has stored that tag and stores the file's number keeps the rule, and has stored the
/// file's label.
pub fn number_keeps_rule()
    ensures { NumbersKeep ⟦<Numbering as Play<Option<OpenFile>, View>>⟧.then }
{}

/// A pass that holds the file of a node and loads the node's word for the tag keeps the rule, and
/// has the file's tag.
pub fn read_tag_keeps_rule()
    ensures { ReadsTagKeep ⟦<ReadingTag as Play<Option<OpenFile>, View>>⟧.then }
{}

/// A pass that holds the file of a node and loads the node's word for the number keeps the rule,
/// and has the number of the file's mark.
pub fn read_number_keeps_rule()
    ensures { ReadsNumberKeep ⟦<ReadingNumber as Play<Option<OpenFile>, View>>⟧.then }
{}

/// A pass that stores 0 in the word of a node whose file is closed or was not installed keeps the
/// rule.
pub fn rest_keeps_rule()
    ensures { RestsKeep ⟦<Resting as Play<Option<OpenFile>, View>>⟧.then }
{}

/// A pass that took the closed file of a node of its stock out, and loads the node's word, keeps
/// the rule. If the word has lost few takes, the pass keeps the node.
pub fn park_keeps_rule()
    ensures { ParksKeep ⟦<Parking as Play<Option<OpenFile>, View>>⟧.then }
{}

/// A pass that loads the word of the node that it keeps keeps the rule, and has the node's place.
/// It knows how many takes the word has lost.
pub fn resume_keeps_rule()
    ensures { ResumesKeep ⟦<Resuming as Play<Option<OpenFile>, View>>⟧.then }
{}

/// A pass that stores 0 in the word of the node that it keeps keeps the rule. The node is free.
pub fn settle_keeps_rule()
    ensures { SettlesKeep ⟦<Settling as Play<Option<OpenFile>, View>>⟧.then }
{}

/// A pass that removed the file that it held by its hold word, and stores 0 there, keeps the rule.
pub fn end_hold_keeps_rule()
    ensures { EndsItsHoldKeep ⟦<EndingHold as Play<Option<OpenFile>, View>>⟧.then }
{}

/// A pass that removed a hot file and loads a word of the list keeps the rule. It need not visit
/// the passes of the word that have no bit there.
pub fn skim_keeps_rule()
    ensures { SkimsKeep ⟦<Skimming as Play<Option<OpenFile>, View>>⟧.then }
{}

/// A pass that removed a hot file and loads the hold word of another pass keeps the rule.
pub fn visit_keeps_rule()
    ensures { VisitsKeep ⟦<Visiting as Play<Option<OpenFile>, View>>⟧.then }
{}

/// A pass that removed a hot file and charges an announcement of its node keeps the rule.
pub fn charge_keeps_rule()
    ensures { ChargesKeep ⟦<Charging as Play<Option<OpenFile>, View>>⟧.then }
{}

/// A pass that removed a file, has visited all passes that it has to, and loads the word of the
/// file's node keeps the rule. If all takes and charges of the file were dropped, it is closed and
/// with the pass.
pub fn finish_keeps_rule()
    ensures { FinishesKeep ⟦<Finishing as Play<Option<OpenFile>, View>>⟧.then }
{}

/// A pass that subtracts 2^32 less the takes and charges of the file that it removed keeps the
/// rule. Where 1 is left nobody has still to let the file go: it is closed and with the pass.
pub fn retire_keeps_rule()
    ensures { RetiresKeep ⟦<Retire as Play<Option<OpenFile>, View>>⟧.then }
{}

/// A pass that subtracts 1 from a group's word, before it empties a slot of the group, keeps the
/// rule.
pub fn lower_keeps_rule()
    ensures { LowersKeep ⟦<Lowering as Play<Option<OpenFile>, View>>⟧.then }
{}

/// A pass that lowered a group's word and loads the question word keeps the rule. Where the word is
/// 0, it may empty a slot of the group.
pub fn check_keeps_rule()
    ensures { ChecksKeep ⟦<Checking as Play<Option<OpenFile>, View>>⟧.then }
{}

/// A pass that lowered a group's word and swaps 0 into the question word keeps the rule, and may
/// empty a slot of the group.
pub fn break_keeps_rule()
    ensures { BreaksKeep ⟦<Breaking as Play<Option<OpenFile>, View>>⟧.then }
{}

/// A pass that adds the slot to a group's word that the word counts too few on its account keeps
/// the rule.
pub fn raise_keeps_rule()
    ensures { RaisesKeep ⟦<Raising as Play<Option<OpenFile>, View>>⟧.then }
{}

/// A pass that loads the question word before it asks keeps the rule.
pub fn begin_keeps_rule()
    ensures { BeginsKeep ⟦<Beginning as Play<Option<OpenFile>, View>>⟧.then }
{}

/// A pass that adds its bit to the question word keeps the rule.
#[tactic(auto, using(crate::proofs::range_lemmas::QuestionSteps::asks_keep))]
pub fn ask_keeps_rule()
    ensures { AsksKeep ⟦<Asking as Play<Option<OpenFile>, View>>⟧.then }
{}

/// A pass that asks and loads the word of the next group keeps the rule. Where the word counts all
/// slots of the group, they are full until the pass's bit is cleared.
pub fn count_keeps_rule()
    ensures { CountsKeep ⟦<Counting as Play<Option<OpenFile>, View>>⟧.then }
{}

/// A pass that found each group full and loads the question word again keeps the rule. Where its
/// bit is still there, every slot of the range is full.
pub fn decide_keeps_rule()
    ensures { DecidesKeep ⟦<Deciding as Play<Option<OpenFile>, View>>⟧.then }
{}

/// A pass that loads the word of a group keeps the rule. A group whose slots it counts all is full.
pub fn peek_keeps_rule()
    ensures { PeeksKeep ⟦<Peeking as Play<Option<OpenFile>, View>>⟧.then }
{}

/// A pass that is split off an idle seat keeps the rule.
#[tactic(auto, using(crate::proofs::life_lemmas::Seats::splits_keep))]
pub fn split_keeps_rule()
    ensures { SplitsKeep ⟦<Deal as Split<View>>⟧.left ⟦<Deal as Split<View>>⟧.right }
{}

/// An idle seat that takes in the passes of another keeps the rule.
#[tactic(auto, using(crate::proofs::life_lemmas::Seats::joins_keep))]
pub fn join_keeps_rule()
    ensures { JoinsKeep ⟦<Gather as Join<View>>⟧.both ⟦<Gather as Join<View>>⟧.spent }
{}

/// An idle pass that leaves of a slot's word the name alone keeps the rule, and has the file that
/// was there to retire.
pub fn take_out_keeps_rule()
    ensures { TakesOutKeep ⟦<Clearing as Play<Option<OpenFile>, View>>⟧.then }
{}

/// An idle pass that swaps the word of an empty slot, which names a node of its stock, into a slot
/// keeps the rule. It has the file that was there to retire, and the node that the slot named in
/// its stock.
pub fn swap_take_keeps_rule()
    ensures { SwapsOutKeep ⟦<Swapping as Play<Option<OpenFile>, View>>⟧.then }
{}

/// A pass that swaps the word of the file that it places into a slot keeps the rule, and has the
/// file that was there to retire. The word begins with as many takes as the word of the file's node
/// has lost.
pub fn install_keeps_rule()
    ensures { InstallsKeep ⟦<Installing as Play<Option<OpenFile>, View>>⟧.then }
{}

/// A pass that exchanges the word of an empty slot for that of the file that it places keeps the
/// rule. The node that the slot named goes into its stock.
pub fn exchange_keeps_rule()
    ensures { ExchangesKeep ⟦<Exchanging as Play<Option<OpenFile>, View>>⟧.then }
{}

/// A pass that loads a slot's word and learns what is at the slot keeps the rule.
pub fn see_keeps_rule()
    ensures { SeesKeep ⟦<Seeing as Play<Option<OpenFile>, View>>⟧.then }
{}

/// A pass that holds the file of a node, and exchanges the word of a slot that names the node for
/// that of an empty slot that names a node of its stock, keeps the rule. Its hold ends. It has the
/// file to retire, without its own take. The node that the slot named goes into its stock.
pub fn swap_held_keeps_rule()
    ensures { SwapsHeldKeep ⟦<SwappingHeld as Play<Option<OpenFile>, View>>⟧.then }
{}

/// A pass that holds no file, looks nothing up and loads a slot's word, to take what a cold slot
/// names or to announce the node of a hot one, keeps the rule.
pub fn aim_keeps_rule()
    ensures { AimsKeep ⟦<Aiming as Play<Option<OpenFile>, View>>⟧.then }
{}

/// A listed pass that has placed a file and adds a take to the word of a slot keeps the rule. It
/// holds the file that the slot names, if there is one, beside the file that it places.
pub fn take_beside_keeps_rule()
    ensures { TakesBesideKeep ⟦<TakingBeside as Play<Option<OpenFile>, View>>⟧.then }
{}

/// A pass that holds the file of a node, has placed another one, and exchanges the word of a slot
/// that names the node for that of the file that it places, keeps the rule. Its hold ends. It has
/// the held file to retire, without its own take. The node that the slot named goes into its stock.
pub fn replace_held_keeps_rule()
    ensures { ReplacesHeldKeep ⟦<ReplacingHeld as Play<Option<OpenFile>, View>>⟧.then }
{}

/// A pass that holds the file of a node, and exchanges the word of a slot that names the node for
/// its name alone, keeps the rule. Its hold ends. It has the file to retire, without its own take.
pub fn take_held_keeps_rule()
    ensures { TakesHeldKeep ⟦<TakingHeld as Play<Option<OpenFile>, View>>⟧.then }
{}

/// While the rule holds, no word overflows, and no part of a slot's word carries into the next. A
/// slot has at most the takes of a cold one, and one more for each pass, in 20 bits; its heat is at
/// most the number of passes, in 11 bits. The word of a node is above 2 until its file is retired,
/// so no drop finds 2 before that. A group's word is between -1,024 and 64, modulo 2^64.
pub fn words_are_bounded()
    ensures { WordsAreBounded }
{}

/// While the rule holds, a node is that of one file as long as the file is held: holds of one node
/// are of one file, which is the file of the slot whose word names the node. The number of a held
/// file, modulo the number of nodes, is its node. A node whose word is 0, as that which a search
/// finds, is that of no file which is held.
#[tactic(auto, using(crate::proofs::hold_lemmas::Holds::nodes_are_of_one_file))]
pub fn nodes_are_of_one_file()
    ensures { NodesAreOfOneFile }
{}

/// While the rule holds and a pass holds a file, no other file is on the hold's node: the file of a
/// slot that is on the node is the held one, and so is a file of the node that another pass has to
/// retire. So a removal or a replacement by key removes the held file or nothing.
#[tactic(auto, using(crate::proofs::hold_lemmas::Holds::held_nodes_name_files))]
pub fn held_nodes_name_files()
    ensures { HeldNodesNameFiles }
{}

/// If no two of some files have the same mark, a key names at most one of them. Nothing else is
/// assumed of the files: the caller of `fx_base::Catalogue::open` chooses the marks. The key of the
/// bits that `Key::to_bits` returns is the key that they were made of.
pub fn keys_are_of_one_file()
    ensures files { KeysAreOfOneFile }
    ensures bits { KeysComeBack }
{}

/// If a check finds the held file current (`LastingTable::is_current`) after a change of the slot
/// that the pass had seen, or had learned of, then this change left the file there, or a later one
/// did. If a check doesn't find it current, though it was at the slot when the pass had seen it
/// there, a later event changed the slot.
pub fn current_files_follow_changes()
    ensures current { CurrentFileFollowsTheChange }
    ensures old { OldFileWasReplaced }
{}

/// While the rule holds, one legal history is that of all passes: what a pass has seen is a
/// beginning of it, and its events of the pass are the pass's own. So the laws of histories
/// (`fx_plain::laws`) hold of what all passes do, at any time before the close: no file comes out
/// of two calls, and none while a pass holds it.
pub fn has_one_history()
    ensures { HasOneHistory }
{}

/// While the rule holds, each file that was removed and isn't closed has a user: a pass that
/// retires it, one that holds it, or one that is within a look-up and has announced its node. So
/// while no look-up is under way, no retired file that nobody holds is open.
pub fn removed_files_have_users()
    ensures { RemovedFilesHaveUsers }
{}

/// Each word of a table of `size` slots, with `passes` passes and `nodes` nodes, has its place
/// inside the table's memory.
#[tactic(auto, using(crate::proofs::Places::places_inside))]
pub fn places_are_inside()
    ensures { (size passes nodes : ℕ) → PlacesAreInside size passes nodes }
{}

/// Different words of such a table have different places, and those of a node are in one line.
#[tactic(auto, using(crate::proofs::Places::places_apart, crate::proofs::Places::labels_apart, crate::proofs::Places::nodes_in_line))]
pub fn places_are_apart()
    ensures places { (size passes : ℕ) → PlacesAreApart size passes }
    ensures labels { (size passes : ℕ) → LabelsAreApart size passes }
    ensures lines { (size passes : ℕ) → NodesAreInOneLine size passes }
{}
