//! Plays a command against a text.
ghost use Rattle.std.specs.Prelude.{◌≡◌};
ghost use Rattle.check_judge.specs.Words.{ℕ, List, string_bytes, IfOk, OnOk, FileEntry, Instruction, instruction_of, RingSlots, ENOMEM, negated};
ghost use Rattle.check_judge.specs.Step.{IsCommandVerdict, IsStep, IsMet};
ghost use Rattle.check_judge.specs.Kept.{IsRingKept};
ghost use Rattle.check_lines.specs.Calls.{IsCall};
ghost use Rattle.fx_print.specs.Text.{result_line};

use crate::judgement::Fault;
use check_lines::{call, memory_word};
use check_search::Doubt;
use fx_base::{Catalogue, Errno, NoMemory};
use fx_language::Command;
use fx_order::{Order, RingSlots};
use fx_script::result_line;
use std::alloc::Global;

/// The judge's answer for the next command of a script and the rest of a text.
#[derive(Drop)]
pub(crate) enum CommandVerdict {
    /// The text continues with this many bytes that the command may print; of an accepted
    /// submission, an order that prints them.
    Printed(usize, Option<Order>),
    /// The text doesn't continue with anything that the command may print.
    Broken(Fault),
    /// Neither was shown of the submission within the limits. The reason is advice.
    Undecided(Doubt),
}

impl CommandVerdict {
    /// Converts the answer for a command that isn't an accepted submission.
    pub fn of(met: Met) -> CommandVerdict
        ensures { (catalogue : List FileEntry) (old new : RingSlots) (command : Instruction)
            (text : List ℕ) → IsStep catalogue old command text met new
            → new.submissions ≡ old.submissions
            → IsCommandVerdict catalogue old command text result new }
    {
        match met {
            Met::Here(count) => CommandVerdict::Printed(count, None),
            Met::Apart(expected) => CommandVerdict::Broken(Fault::Text(expected)),
        }
    }
}

/// The result of looking for a command's text.
#[derive(Drop)]
pub(crate) enum Met {
    /// The text begins with it; its number of bytes.
    Here(usize),
    /// The text begins with nothing that the command may print; the likeliest text of the command.
    Apart(String),
}

/// Looks for one or several lines at the beginning of a text.
pub(crate) fn meet(text: &[u8], line: String) -> Met
    ensures { IsMet text.now (string_bytes line) result }
{
    if text.starts_with(line.as_bytes()) {
        return Met::Here(line.len());
    }
    Met::Apart(line)
}

// Looks for the line of a call whose allocation failed. If it is missing, `likelier` is the
// likeliest line.
fn or_no_memory(alloc: Global, text: &[u8], word: &str, likelier: String) -> Result<Met, NoMemory>
    ensures { IfOk result (IsMet text.now (result_line word.now (negated ENOMEM))) }
{
    let line = result_line(alloc, word, -i64::from(Errno::ENOMEM.code()))?;
    match meet(text, line) {
        Met::Here(count) => Ok(Met::Here(count)),
        Met::Apart(_) => Ok(Met::Apart(likelier)),
    }
}

/// Plays a call between submissions, or a submission that is refused: looks for its line if no
/// allocation fails, and then for its ENOMEM line.
///
/// # Errors
/// `NoMemory` if an allocation fails.
pub(crate) fn play_call(
    alloc: Global,
    catalogue: &Catalogue,
    ring: &mut RingSlots,
    command: &Command,
    text: &[u8],
) -> Result<Met, NoMemory>
    requires kept { IsRingKept catalogue.now ring.old }
    requires call { IsCall ring.old.submissions (instruction_of command.now) }
    ensures step { IfOk result (λ met. IsStep catalogue.now ring.old
        (instruction_of command.now) text.now met ring.new) }
    ensures counted { ring.new.submissions ≡ ring.old.submissions }
    ensures kept { OnOk result (IsRingKept catalogue.now ring.new) }
{
    let called = call(alloc, catalogue, ring, command)?;
    match meet(text, called.line) {
        Met::Here(count) => {
            *ring = called.ring;
            Ok(Met::Here(count))
        }
        Met::Apart(expected) => match memory_word(catalogue, ring, command) {
            Some(word) => or_no_memory(alloc, text, word, expected),
            None => Ok(Met::Apart(expected)),
        },
    }
}
