//! The verdict on a text.
ghost use Rattle.std.specs.Prelude.{ℕ, List};
ghost use Rattle.fx_language.specs.Script.{IsScript, Meaning};
ghost use Rattle.check_judge.specs.Judged.{IsJudged};
ghost use Rattle.fx_judge.specs.Verdicts.{IsTextVerdict};

use crate::codes::{BAD_SCRIPT, LEGAL, NO_MEMORY, NOT_LEGAL, UNDECIDED};
use crate::note::{JudgedText, note_break, note_fault};
use check_judge::{Judgement, judge};
use check_search::Limits;
use fx_script::{Script, ScriptError};
use std::alloc::Global;

/// The details of a verdict. After `NO_MEMORY` the fields mean nothing. Otherwise a field that the
/// number doesn't speak of is 0.
#[repr(C)]
#[derive(Drop)]
pub struct YachtVerdict {
    /// Of a text that isn't legal: the number of commands that may have printed the text before the
    /// break.
    pub commands: u64,
    /// Of a text that isn't legal: the number of bytes before the break.
    pub at: u64,
    /// The number of bytes of the whole note, of which as many are written as have room.
    pub note: u64,
    /// Of an undecided text: the accepted submission that was not decided, from 1.
    pub submission: u32,
    /// Of bytes that aren't a script: the line of the first fault, from 1, or 0 if there are too
    /// many bytes.
    pub line: u32,
}

// Returns the details of no verdict.
fn no_details() -> YachtVerdict {
    YachtVerdict {
        commands: 0,
        at: 0,
        note: 0,
        submission: 0,
        line: 0,
    }
}

// Writes the details and the note of a judgement. Returns its number.
fn conclude(
    alloc: Global,
    judged: JudgedText<'_>,
    judgement: Judgement,
    note: &mut [u8],
    verdict: &mut YachtVerdict,
) -> u32
    ensures { (script : List ℕ) (meaning : Meaning) → IsScript script meaning
        → IsJudged meaning judged.entry.text.now judgement
        → IsTextVerdict script judged.entry.text.now result verdict.new }
{
    match judgement {
        Judgement::Legal(_) => LEGAL,
        Judgement::NotLegal(broken) => {
            verdict.commands = broken.commands as u64;
            verdict.at = broken.at as u64;
            verdict.note = note_break(alloc, judged, &broken, note);
            NOT_LEGAL
        }
        Judgement::Undecided(submission, _) => {
            verdict.submission = submission;
            UNDECIDED
        }
    }
}

/// Decides whether a script may print a text, by a search within these limits for each part of a
/// submission that has slots of its own. It returns `LEGAL`, `NOT_LEGAL`, `UNDECIDED`,
/// `BAD_SCRIPT` or `NO_MEMORY`. The note is what is expected at the break of a text
/// that isn't legal, or the name of the script's fault.
pub fn judge_text(
    alloc: Global,
    script: &[u8],
    text: &[u8],
    limits: Limits,
    note: &mut [u8],
    verdict: &mut YachtVerdict,
) -> u32
    ensures { IsTextVerdict script.now text.now result verdict.new }
{
    *verdict = no_details();
    let read = match Script::read(alloc, script) {
        Ok(read) => read,
        Err(ScriptError::NoMemory) => return NO_MEMORY,
        Err(ScriptError::Fault { line, kind }) => {
            verdict.line = line;
            let Ok(count) = note_fault(alloc, kind, note) else {
                return NO_MEMORY;
            };
            verdict.note = count;
            return BAD_SCRIPT;
        }
    };
    let Ok(judgement) = judge(alloc, &read, text, limits) else {
        return NO_MEMORY;
    };
    let judged = JudgedText {
        source: script,
        script: &read,
        text,
    };
    conclude(alloc, judged, judgement, note, verdict)
}
