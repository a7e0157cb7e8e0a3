//! The note beside a number: advice for a person, of which no contract speaks.
use check_explain::{Question, Words, asked_lines, push_why_broken};
use check_judge::{Break, Fault};
use fx_base::NoMemory;
use fx_script::{Script, ScriptFault};
use std::alloc::{AllocError, Global};

// Copies as many bytes of a text as have room. Returns the length of the whole text.
fn copy(text: &[u8], into: &mut [u8]) -> u64 {
    let mut count = text.len();
    if into.len() < count {
        count = into.len();
    }
    into[..count].copy_from_slice(&text[..count]);
    text.len() as u64
}

/// Writes the name of a script's fault. Returns its length.
///
/// # Errors
/// `AllocError` if an allocation fails.
pub fn note_fault(alloc: Global, kind: ScriptFault, note: &mut [u8]) -> Result<u64, AllocError> {
    let words = format!(in alloc; "{kind}")?;
    Ok(copy(words.as_bytes(), note))
}

/// A script, and a text that is judged for it.
#[derive(Clone, Copy)]
pub struct JudgedText<'a> {
    /// The bytes of the script.
    pub source: &'a [u8],
    /// The script.
    pub script: &'a Script,
    /// The text.
    pub text: &'a [u8],
}

// Writes the reason why a text breaks, in the words of `fixcheck`. Returns its length.
fn note_reason(
    alloc: Global,
    judged: JudgedText<'_>,
    broken: &Break,
    note: &mut [u8],
) -> Result<u64, NoMemory> {
    let asked = asked_lines(alloc, judged.source)?;
    let question = Question {
        alloc,
        script: judged.script,
        asked: &asked,
        text: judged.text,
    };
    let mut why = Words::new(alloc);
    let place = question.place_of(broken, question.beginning());
    let facts = question.facts_at(broken, &place)?;
    push_why_broken(&mut why, &question, broken, &place, &facts)?;
    let words = why.text()?.as_bytes();
    Ok(copy(words.strip_suffix(b"\n").unwrap_or(words), note))
}

/// Writes what is expected at a break: the likeliest text, or a line in words; or, if neither is
/// known, the reason that `fixcheck` prints. Returns its length, which is 0 if an allocation fails.
pub fn note_break(alloc: Global, judged: JudgedText<'_>, broken: &Break, note: &mut [u8]) -> u64 {
    match &broken.fault {
        Fault::Text(expected) if !expected.is_empty() => copy(expected.as_bytes(), note),
        Fault::Line(_, expected) => copy(expected.as_bytes(), note),
        _ => note_reason(alloc, judged, broken, note).unwrap_or(0),
    }
}
