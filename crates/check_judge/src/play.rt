//! The judge: plays the commands of a script against a text, one after another.
ghost use Rattle.std.specs.Prelude.{◌≡◌, ◌≤◌, IfNone, IfOk, IfSome, List, OnOk, drop, length};
ghost use Rattle.check_judge.specs.Words.{FileEntry, new_ring, instruction_of, instructions_of, PrintsEnd, AreFiles, ring_with_slots};
ghost use Rattle.check_judge.specs.Step.{IsCommandVerdict};
ghost use Rattle.check_judge.specs.Judged.{IsJudged, IsJudgedFrom};
ghost use Rattle.check_judge.specs.Kept.{IsRingKept};
ghost use Rattle.check_judge.specs.declared.judgement.Judgement.TheVariants.{NotLegal};

use crate::command::{CommandVerdict, play_call};
use crate::judgement::{Break, Fault, Judgement};
use crate::kept::is_kept;
use crate::submission::play_submission;
use check_lines::{accepted_in, close_in_order, files_at};
use check_search::Limits;
use fx_base::{Catalogue, NoMemory};
use fx_language::{Command, Script};
use fx_order::{RingSlots, Slots};
use fx_script::teardown_text;
use std::alloc::Global;

// Returns a ring without a table, with nothing counted.
fn new_ring(alloc: Global) -> RingSlots
    ensures ring { (catalogue : List FileEntry)
        → ring_with_slots catalogue result ≡ new_ring catalogue }
    ensures kept { (catalogue : List FileEntry) → AreFiles catalogue → IsRingKept catalogue result }
{
    RingSlots {
        slots: Slots {
            range: (0, 0),
            at: Vec::new(alloc),
        },
        submissions: 0,
        registrations: 0,
    }
}

// Plays a command against the rest of the text.
fn play_command(
    alloc: Global,
    catalogue: &Catalogue,
    ring: &mut RingSlots,
    command: &Command,
    text: &[u8],
    limits: Limits,
) -> Result<CommandVerdict, NoMemory>
    requires { IsRingKept catalogue.now ring.old }
    ensures answer { IfOk result (λ answer. IsCommandVerdict catalogue.now ring.old
        (instruction_of command.now) text.now answer ring.new) }
    ensures kept { OnOk result (IsRingKept catalogue.now ring.new) }
{
    if let Some(requests) = accepted_in(command, ring.submissions) {
        return play_submission(alloc, catalogue, ring, requests, text, limits);
    }
    let met = play_call(alloc, catalogue, ring, command, text)?;
    Ok(CommandVerdict::of(met))
}

// Returns the text of the end of the script, or `None` if it is the rest of the text.
fn play_end(
    alloc: Global,
    catalogue: &Catalogue,
    ring: &RingSlots,
    text: &[u8],
) -> Result<Option<String>, NoMemory>
    requires { IsRingKept catalogue.now ring.now }
    ensures end { IfOk result (λ expected. IfNone expected
        (PrintsEnd (ring_with_slots catalogue.now ring.now) text.now)) }
    ensures only { IfOk result (λ expected. IfSome expected
        (λ _. PrintsEnd (ring_with_slots catalogue.now ring.now) text.now → ⊥)) }
{
    let files = files_at(alloc, &ring.slots)?;
    let closes = close_in_order(alloc, catalogue, &files)?;
    let expected = teardown_text(alloc, catalogue, &closes)?;
    if expected.as_bytes() == text {
        Ok(None)
    } else {
        Ok(Some(expected))
    }
}

// Returns the verdict that a text breaks after `commands` commands and `at` bytes.
fn broken(commands: usize, at: usize, ring: RingSlots, fault: Fault) -> Judgement
    ensures { result ≡ NotLegal (record {
      commands = commands;
      at = at;
      ring = ring;
      fault = fault;
    }) }
{
    Judgement::NotLegal(Break {
        commands,
        at,
        ring,
        fault,
    })
}

// Judges the rest of a text by the rest of a script's commands, from a ring.
fn judge_rest(
    alloc: Global,
    catalogue: &Catalogue,
    commands: &[Command],
    start: RingSlots,
    text: &[u8],
    limits: Limits,
) -> Result<Judgement, NoMemory>
    requires { IsRingKept catalogue.now start }
    ensures { IfOk result (IsJudgedFrom (ring_with_slots catalogue.now start)
        (instructions_of commands.now) text.now) }
{
    let mut ring = start;
    let mut orders = Vec::new(alloc);
    let mut at = 0usize;
    for (done, command) in commands.iter().enumerate() {
        match play_command(alloc, catalogue, &mut ring, command, &text[at..], limits)? {
            CommandVerdict::Printed(count, order) => {
                at += count;
                if let Some(order) = order {
                    orders.push(order)?;
                }
            }
            CommandVerdict::Broken(fault) => return Ok(broken(done, at, ring, fault)),
            CommandVerdict::Undecided(doubt) => {
                return Ok(Judgement::Undecided(ring.submissions + 1, doubt));
            }
        }
    }
    match play_end(alloc, catalogue, &ring, &text[at..])? {
        None => Ok(Judgement::Legal(orders)),
        Some(expected) => Ok(broken(commands.len(), at, ring, Fault::Text(expected))),
    }
}

/// Decides whether a script may print a text. It plays the commands against the text, one after
/// another, on the slots and counts of a ring. For each submission, the limits hold for the states
/// of each part that has slots of its own.
///
/// If the text is legal, the script may print it by one play in which each accepted submission is
/// done in its order. If it isn't, the commands before the break may print the text before the
/// break, and no other beginning of the text; with the next command they print none. A beginning
/// isn't followed by a line of a closed file or a tag.
///
/// # Errors
/// `NoMemory` if an allocation fails.
pub fn judge(
    alloc: Global,
    script: &Script,
    text: &[u8],
    limits: Limits,
) -> Result<Judgement, NoMemory>
    ensures { IfOk result (IsJudged script.now text.now) }
{
    let (catalogue, commands) = (script.catalogue(), script.commands());
    judge_rest(alloc, catalogue, commands, new_ring(alloc), text, limits)
}

/// Decides whether the commands of a script after the first `done` may print a text from a ring
/// with these slots and counts, as `judge` does from a ring without a table. In a break, the
/// commands are counted after the first `done`, and the bytes from the beginning of the text.
/// Returns `None` if there are fewer commands, or if no ring has these slots and counts: a file
/// isn't in the catalogue, its mark isn't counted or is at two slots, or a limit is exceeded.
///
/// Nothing is said of whether a play leads to such a ring.
///
/// # Errors
/// `NoMemory` if an allocation fails.
pub fn judge_from(
    alloc: Global,
    script: &Script,
    done: usize,
    ring: RingSlots,
    text: &[u8],
    limits: Limits,
) -> Result<Option<Judgement>, NoMemory>
    ensures judged { IfOk result (λ judged. IfSome judged
        (IsJudgedFrom (ring_with_slots script.now.catalogue ring) (drop done script.now.commands)
        text.now)) }
    ensures none { IfOk result (λ judged. IfNone judged (done ≤ length script.now.commands
        → IsRingKept script.now.catalogue ring → ⊥)) }
{
    let (catalogue, commands) = (script.catalogue(), script.commands());
    if done > commands.len() {
        return Ok(None);
    }
    if !is_kept(catalogue, &ring) {
        return Ok(None);
    }
    let judgement = judge_rest(alloc, catalogue, &commands[done..], ring, text, limits)?;
    Ok(Some(judgement))
}
