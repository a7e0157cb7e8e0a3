//! The rule of a lasting table, and its kinds of step.
ghost use Rattle.fx_lasting.specs.Words.{first_view};
ghost use Rattle.fx_lasting.specs.Agrees.{Agrees};
ghost use Rattle.fx_lasting.specs.life.Cuts.{seats as views};
ghost use Rattle.fx_lasting.specs.Effects.{Glances, Lists, Announces, Confirms, Withdraws, Takes, HeatsSlot, StepsDown, LettingGo, Seeks, Births};
ghost use Rattle.fx_lasting.specs.Effects.{Rests, EndsItsHold, Skims, Visits, Charges, Retires, Installs, Exchanges, Removes, Peeks, Sees, Lowers};
ghost use Rattle.fx_lasting.specs.Effects.{Checks, Breaks, Raises, Begins, Asks, Counts, Decides};
ghost use Rattle.fx_lasting.specs.nodes.LabelSteps.{RecallsTag, Tags, Numbers, ReadsTag, ReadsNumber};
ghost use Rattle.fx_lasting.specs.nodes.KeepSteps.{Parks, Resumes, SettlesNode};
ghost use Rattle.fx_lasting.specs.holds.FinishSteps.{Finishes};
ghost use Rattle.fx_lasting.specs.slots.SwapSteps.{SwapsHeld, SwapsOut, TakesHeld};
ghost use Rattle.fx_lasting.specs.slots.PutSteps.{Aims, TakesBeside, ReplacesHeld};
ghost use Rattle.fx_lasting.specs.life.Showing.{HasLearned};

use crate::view::{Log, Start, View};
use atomic_table::{Play, TableRule};
use fx_base::OpenFile;
use table_seats::SeatView;

/// The rule: words, places and passes agree with the state that one legal history leads to.
pub struct OneHistory;

impl TableRule<Option<OpenFile>, View, Start> for OneHistory {
    ghost holds = { Agrees };

    ghost first = { first_view views };
}

/// Glance: a pass loads a slot's word, to look it up.
pub struct Glancing;

impl Play<Option<OpenFile>, View> for Glancing {
    ghost then = { Glances };
}

/// List: a pass adds its bit to the list of passes that ever looked a file up.
pub struct Listing;

impl Play<Option<OpenFile>, View> for Listing {
    ghost then = { Lists };
}

/// Announce: the hold word of a listed pass names the node of a hot slot.
pub struct Announcing;

impl Play<Option<OpenFile>, View> for Announcing {
    ghost then = { Announces };
}

/// Confirm: a pass that announced a node holds its file, if the slot is hot and names the node
/// still.
pub struct Confirming;

impl Play<Option<OpenFile>, View> for Confirming {
    ghost then = { Confirms };
}

/// Withdraw: an announcement ends, and a charge that it got is owed.
pub struct Withdrawing;

impl Play<Option<OpenFile>, View> for Withdrawing {
    ghost then = { Withdraws };
}

/// Take: one take more in the slot's word, and one hold more of its file.
pub struct Taking;

impl Play<Option<OpenFile>, View> for Taking {
    ghost then = { Takes };
}

/// Heat: a pass adds itself to the heat of a slot that had its takes. The slot is hot until its
/// word is swapped.
pub struct HeatingUp;

impl Play<Option<OpenFile>, View> for HeatingUp {
    ghost then = { HeatsSlot };
}

/// Step down: a hold by the hold word ends, or its charge is owed.
pub struct SteppingDown;

impl Play<Option<OpenFile>, View> for SteppingDown {
    ghost then = { StepsDown };
}

/// Drop: a charge or a take less in the word of a node. Where none is left of a retired file, the
/// file goes to the pass.
pub struct Letting;

impl Play<Option<OpenFile>, View> for Letting {
    ghost then = { LettingGo };
}

/// Seek: a pass reads whether a node of its stock is free.
pub struct Seeking;

impl Play<Option<OpenFile>, View> for Seeking {
    ghost then = { Seeks };
}

/// Birth: the place of a free node goes to the pass.
pub struct Birth;

impl Play<Option<OpenFile>, View> for Birth {
    ghost then = { Births };
}

/// Recall: a pass loads the tag that the label of the node has already, before it stores that of
/// the file that it is about to install.
pub struct RecallingTag;

impl Play<Option<OpenFile>, View> for RecallingTag {
    ghost then = { RecallsTag };
}

/// Tag: a pass stores the tag of the file that it is about to install.
pub struct Tagging;

impl Play<Option<OpenFile>, View> for Tagging {
    ghost then = { Tags };
}

/// Number: a pass stores the number of the file that it is about to install.
pub struct Numbering;

impl Play<Option<OpenFile>, View> for Numbering {
    ghost then = { Numbers };
}

/// Read tag: a pass loads the tag of the file that it holds.
pub struct ReadingTag;

impl Play<Option<OpenFile>, View> for ReadingTag {
    ghost then = { ReadsTag };
}

/// Read number: a pass loads the number of the file that it holds.
pub struct ReadingNumber;

impl Play<Option<OpenFile>, View> for ReadingNumber {
    ghost then = { ReadsNumber };
}

/// Rest: the place of a node goes home without a file.
pub struct Resting;

impl Play<Option<OpenFile>, View> for Resting {
    ghost then = { Rests };
}

/// Park: a pass that took a closed file out reads whether the node's word has lost few takes. If
/// so, the place goes home, and the pass keeps the node for its next file.
pub struct Parking;

impl Play<Option<OpenFile>, View> for Parking {
    ghost then = { Parks };
}

/// Resume: the place of the node that the pass keeps goes to the pass, which reads how many takes
/// the node's word has lost.
pub struct Resuming;

impl Play<Option<OpenFile>, View> for Resuming {
    ghost then = { Resumes };
}

/// Settle: the node that the pass kept is free.
pub struct Settling;

impl Play<Option<OpenFile>, View> for Settling {
    ghost then = { SettlesNode };
}

/// End of a hold: the hold word of a pass that removed the file it held names no node any more.
pub struct EndingHold;

impl Play<Option<OpenFile>, View> for EndingHold {
    ghost then = { EndsItsHold };
}

/// Skim: a pass that removed a hot file reads which of 64 passes are listed, and so may announce
/// its node.
pub struct Skimming;

impl Play<Option<OpenFile>, View> for Skimming {
    ghost then = { Skims };
}

/// Visit: a pass that removed a hot file reads whether another pass announces its node.
pub struct Visiting;

impl Play<Option<OpenFile>, View> for Visiting {
    ghost then = { Visits };
}

/// Charge: the announcement of another pass is counted, and that pass owes it.
pub struct Charging;

impl Play<Option<OpenFile>, View> for Charging {
    ghost then = { Charges };
}

/// Finish: a pass that removed a file reads whether all its takes and charges were dropped. If so,
/// the file goes to the pass.
pub struct Finishing;

impl Play<Option<OpenFile>, View> for Finishing {
    ghost then = { Finishes };
}

/// Retire: takes and charges turn the word of a removed file's node into what is still to be
/// dropped. Where nothing is left, the file goes to the pass.
pub struct Retire;

impl Play<Option<OpenFile>, View> for Retire {
    ghost then = { Retires };
}

/// Install: the file that the pass places goes to a slot, in place of what was there. The node that
/// the slot named goes into the pass's stock.
pub struct Installing;

impl Play<Option<OpenFile>, View> for Installing {
    ghost then = { Installs };
}

/// Exchange: the file that the pass places goes to a slot that is still empty. The node that the
/// slot named goes into the pass's stock.
pub struct Exchanging;

impl Play<Option<OpenFile>, View> for Exchanging {
    ghost then = { Exchanges };
}

/// Peek: a pass reads the word of a group, and learns whether the group is full.
pub struct Peeking;

impl Play<Option<OpenFile>, View> for Peeking {
    ghost then = { Peeks };
}

/// See: a pass reads which file is at a slot.
pub struct Seeing;

impl Play<Option<OpenFile>, View> for Seeing {
    ghost then = { Sees };
}

/// Swap, if the slot still has the word that the pass saw, by a pass that holds the slot's file:
/// the slot is emptied for a close as by [`Swapping`], and the hold ends with the step.
pub struct SwappingHeld;

impl Play<Option<OpenFile>, View> for SwappingHeld {
    ghost then = { SwapsHeld };
}

/// Aim: a pass loads a slot's word, to hold what the slot names beside the file that it places.
pub struct Aiming;

impl Play<Option<OpenFile>, View> for Aiming {
    ghost then = { Aims };
}

/// Take: a pass that has placed a file adds a take to a slot's word.
pub struct TakingBeside;

impl Play<Option<OpenFile>, View> for TakingBeside {
    ghost then = { TakesBeside };
}

/// Replace, if the slot still has the word that the pass saw, by a pass that holds the slot's file:
/// the slot gets the file that the pass places, as by [`Installing`], and the hold ends with the
/// step.
pub struct ReplacingHeld;

impl Play<Option<OpenFile>, View> for ReplacingHeld {
    ghost then = { ReplacesHeld };
}

/// Take, if the slot still has the word that the pass saw, by a pass without a stock that holds the
/// slot's file: the slot is emptied for a close as by [`Clearing`], and the hold ends with the
/// step.
pub struct TakingHeld;

impl Play<Option<OpenFile>, View> for TakingHeld {
    ghost then = { TakesHeld };
}

/// And: a pass without a stock empties a slot. Its word names the node still.
pub struct Clearing;

impl Play<Option<OpenFile>, View> for Clearing {
    ghost then = { Removes };
}

/// Swap: a slot is emptied. Its word names a node of the pass's stock, and the node that it named
/// takes that node's place.
pub struct Swapping;

impl Play<Option<OpenFile>, View> for Swapping {
    ghost then = { SwapsOut };
}

/// Lower: a group's word counts one full slot less, before the pass empties that slot.
pub struct Lowering;

impl Play<Option<OpenFile>, View> for Lowering {
    ghost then = { Lowers };
}

/// Check: a pass that is about to empty a slot reads whether a pass asks if all slots are full.
pub struct Checking;

impl Play<Option<OpenFile>, View> for Checking {
    ghost then = { Checks };
}

/// Break: a pass that is about to empty a slot clears the questions of all passes.
pub struct Breaking;

impl Play<Option<OpenFile>, View> for Breaking {
    ghost then = { Breaks };
}

/// Raise: a group's word counts one full slot more, after the pass filled that slot, or took it off
/// the count although the slot was empty.
pub struct Raising;

impl Play<Option<OpenFile>, View> for Raising {
    ghost then = { Raises };
}

/// Begin: a pass reads whether the question word has its bit.
pub struct Beginning;

impl Play<Option<OpenFile>, View> for Beginning {
    ghost then = { Begins };
}

/// Ask: a pass sets its bit in the question word.
pub struct Asking;

impl Play<Option<OpenFile>, View> for Asking {
    ghost then = { Asks };
}

/// Count: a pass that asks reads whether the next group is full.
pub struct Counting;

impl Play<Option<OpenFile>, View> for Counting {
    ghost then = { Counts };
}

/// Decide: a pass that found each group full reads whether its bit is still in the question word:
/// every slot of the range is full then.
pub struct Deciding;

impl Play<Option<OpenFile>, View> for Deciding {
    ghost then = { Decides };
}

impl SeatView for View {
    type Log = Log;

    type Start = Start;

    ghost seats = { views };

    ghost learns = { HasLearned };
}
