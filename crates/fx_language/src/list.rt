//! Lists of entries and of tags: words with at least one of them, separated by single commas. A
//! list is read once, part by part, so an allocation may fail before a fault is found.
ghost use Rattle.std.specs.Prelude.{option_map, ok_or};
ghost use Rattle.fx_language.specs.declared.fault.ScriptFault.TheVariants.{BadTag};
ghost use Rattle.fx_language.specs.Line.{list_in, tags_in};
ghost use Rattle.fx_language.specs.ScriptView.{YieldsOrFails};
ghost use Rattle.fx_language.specs.Words.{tag_list_of};

use crate::fault::{LineError, ScriptFault};
use crate::number::{entry, tag};
use crate::parts::Parts;
use std::alloc::Global;

// Parses a word as a list of entries.
pub fn entries(alloc: Global, word: &[u8]) -> Result<Vec<i32>, LineError>
    ensures { YieldsOrFails (λ list. list.items) result (list_in word.now) }
{
    let mut list = Vec::new(alloc);
    for part in Parts::new(word, b',') {
        let Some(entry) = entry(part) else {
            return Err(LineError::Fault(ScriptFault::BadEntry));
        };
        list.push(entry)?;
    }
    Ok(list)
}

// Parses a word as a list of tags.
fn tag_list(alloc: Global, word: &[u8]) -> Result<Vec<u64>, LineError>
    ensures { YieldsOrFails (λ tags. tags.items) result (ok_or (tag_list_of word.now) BadTag) }
{
    let mut tags = Vec::new(alloc);
    for part in Parts::new(word, b',') {
        let Some(tag) = tag(part) else {
            return Err(LineError::Fault(ScriptFault::BadTag));
        };
        tags.push(tag)?;
    }
    Ok(tags)
}

// Parses the last word as a list of tags, if there is one.
pub fn tags(alloc: Global, last: Option<&[u8]>) -> Result<Option<Vec<u64>>, LineError>
    ensures { YieldsOrFails (option_map (λ given. given.items)) result
        (tags_in (option_map (λ word. word.now) last.entry)) }
{
    match last {
        None => Ok(None),
        Some(word) => Ok(Some(tag_list(alloc, word)?)),
    }
}
