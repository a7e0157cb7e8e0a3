//! The verdicts on a submission's report and on a text, each with its reason.

use check_search::Doubt;
use fx_chain::Place;
use fx_order::{ChainAccess, Order, RingSlots};
use std::alloc::AllocFailed;

/// The reason why no order leads to a report. It is advice for a person, and no contract speaks of
/// it.
#[derive(Clone, Copy)]
pub enum Reason {
    /// The request at this place has no completion, or one that is impossible with any table.
    Member(Place),
    /// There are more completions than requests.
    TooManyCompletions,
    /// The closes aren't in order of mark, or contain a file that was never in the table.
    Closes,
    /// No order of the accesses to this slot leads to the report.
    Slot(u32),
    /// No order of the accesses of chains that share slots leads to the report.
    Chains,
}

/// A verdict on the report of a submission.
#[derive(Drop)]
pub enum Verdict {
    /// This order of accesses leads to the report.
    Legal(Vec<ChainAccess>),
    /// No order leads to the report.
    NotLegal(Reason),
    /// Neither was shown within the limits.
    Undecided(Doubt),
}

/// A reason for which there is no answer.
#[derive(Clone, Copy)]
pub enum Stop {
    /// No order explains the report.
    Refuted(Reason),
    /// The report can't be judged.
    Unknown,
    /// An allocation failed.
    NoMemory,
}

impl From<fx_base::NoMemory> for Stop {
    ghost use Rattle.std.specs.Prelude.{◌≡◌};
    ghost use Rattle.check_judge.specs.declared.judgement.Stop.TheVariants.{NoMemory};

    ghost from_gives = { λ _ e. e ≡ NoMemory };

    fn from(_error: fx_base::NoMemory) -> Stop {
        Stop::NoMemory
    }
}

impl<T: Drop> From<AllocFailed<T>> for Stop {
    ghost use Rattle.std.specs.Prelude.{◌≡◌};
    ghost use Rattle.check_judge.specs.declared.judgement.Stop.TheVariants.{NoMemory};

    ghost from_gives = { λ _ e. e ≡ NoMemory };

    fn from(_refused: AllocFailed<T>) -> Stop {
        Stop::NoMemory
    }
}

/// The reason why a script doesn't print a text after its break. It is advice for a person, and no
/// contract speaks of it.
#[derive(Drop)]
pub enum Fault {
    /// The text doesn't continue with any text that the next command, or the end, may print; this
    /// is the likeliest one.
    Text(String),
    /// A line that the submission's report can't have at its place: its number, from 0, counted
    /// from the break, and the line that is expected there, in words.
    Line(usize, String),
    /// No order of the submission's requests leads to the text: the submission, from 1, and the
    /// reason.
    Order(u32, Reason),
}

/// The place at which a script is seen not to print a text. The first commands may print the text
/// before it.
#[derive(Drop)]
pub struct Break {
    /// The number of commands that may have printed the text before the break. No play prints a
    /// beginning of the text with one more command, unless a line of a closed file or a tag follows
    /// that beginning. If all commands are counted, the end of the script doesn't print the rest.
    pub commands: usize,
    /// The number of bytes of the text before the break.
    pub at: usize,
    /// The slots and counts of the ring after these commands. They are advice for a person, as the
    /// fault is.
    pub ring: RingSlots,
    /// The reason.
    pub fault: Fault,
}

/// A verdict: whether a script may print a text.
#[derive(Drop)]
pub enum Judgement {
    /// The script may print the text: an order for each accepted submission.
    Legal(Vec<Order>),
    /// The script doesn't print the text.
    NotLegal(Break),
    /// Neither was shown within the limits, of this accepted submission, counted from 1. The reason
    /// is advice.
    Undecided(u32, Doubt),
}
