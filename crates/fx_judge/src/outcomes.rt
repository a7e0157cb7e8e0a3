//! The list of the texts of a script, one after another, and their lengths.
ghost use Rattle.std.specs.Prelude.{◌≡◌, ◌≤◌, IfOk, IsTrue, length, map, string_bytes, take};
ghost use Rattle.fx_judge.specs.Outcomes.{IsTextList, joined, lengths_in};

use crate::codes::{ALL, BAD_SCRIPT, NO_MEMORY, NO_ROOM, SOME};
use check_search::Limits;
use check_texts::texts_of;
use fx_script::{Script, ScriptError};
use std::alloc::{AllocError, Global};

/// The details of a list of texts. A field that the number doesn't speak of is 0.
#[repr(C)]
#[derive(Drop)]
pub struct YachtTexts {
    /// The number of texts that were found.
    pub count: u64,
    /// The number of bytes of all these texts.
    pub bytes: u64,
    /// Of bytes that aren't a script: the line of the first fault, from 1, or 0 if there are too
    /// many bytes.
    pub line: u32,
}

// Texts, one after another.
#[derive(Drop)]
struct Listed {
    // All their bytes.
    bytes: Vec<u8>,
    // The number of bytes of each.
    lengths: Vec<u64>,
}

// Returns texts one after another.
fn list(alloc: Global, texts: &[String]) -> Result<Listed, AllocError>
    ensures bytes { IfOk result (λ listed.
        listed.bytes.items ≡ joined (map string_bytes texts.now)) }
    ensures lengths { IfOk result (λ listed.
        listed.lengths.items ≡ lengths_in (map string_bytes texts.now)) }
{
    let mut listed = Listed {
        bytes: Vec::new(alloc),
        lengths: Vec::new(alloc),
    };
    for text in texts {
        let bytes = text.as_bytes();
        listed.bytes.extend_from_slice(bytes)?;
        listed.lengths.push(bytes.len() as u64)?;
    }
    Ok(listed)
}

// Copies items to the beginning of a buffer that has room for them.
fn put<T: Copy>(items: &[T], into: &mut [T])
    requires { length items.now ≤ length into.old }
    ensures { take (length items.now) into.new ≡ items.now }
{
    let count = items.len();
    into[..count].copy_from_slice(items);
}

// Writes the texts and their lengths, if there is room for all of them, and in any case their
// counts. Returns whether there is room.
fn hand_out(listed: &Listed, texts: &mut [u8], lengths: &mut [u64], found: &mut YachtTexts) -> bool
    ensures bytes { found.new.bytes ≡ length listed.now.bytes.items }
    ensures count { found.new.count ≡ length listed.now.lengths.items }
    ensures texts { IsTrue result
        → take (length listed.now.bytes.items) texts.new ≡ listed.now.bytes.items }
    ensures lengths { IsTrue result
        → take (length listed.now.lengths.items) lengths.new ≡ listed.now.lengths.items }
{
    found.bytes = listed.bytes.len() as u64;
    found.count = listed.lengths.len() as u64;
    if texts.len() < listed.bytes.len() || lengths.len() < listed.lengths.len() {
        return false;
    }
    put(&listed.bytes, texts);
    put(&listed.lengths, lengths);
    true
}

/// Lists the texts that a script may print if no allocation fails, each once, by searches within
/// these limits in all. It returns `ALL`, `SOME`, `BAD_SCRIPT`, `NO_ROOM` or `NO_MEMORY`. The texts
/// are written one after another, and the length of each. If they have no room, `found` says how
/// much they need.
pub fn list_texts(
    alloc: Global,
    script: &[u8],
    limits: Limits,
    texts: &mut [u8],
    lengths: &mut [u64],
    found: &mut YachtTexts,
) -> u32
    ensures { IsTextList script.now result found.new texts.new lengths.new }
{
    *found = YachtTexts {
        count: 0,
        bytes: 0,
        line: 0,
    };
    let read = match Script::read(alloc, script) {
        Ok(read) => read,
        Err(ScriptError::NoMemory) => return NO_MEMORY,
        Err(ScriptError::Fault { line, kind: _ }) => {
            found.line = line;
            return BAD_SCRIPT;
        }
    };
    let Ok(all) = texts_of(alloc, &read, limits, usize::MAX) else {
        return NO_MEMORY;
    };
    let Ok(listed) = list(alloc, all.texts.as_slice()) else {
        return NO_MEMORY;
    };
    if !hand_out(&listed, texts, lengths, found) {
        return NO_ROOM;
    }
    if all.are_all { ALL } else { SOME }
}
