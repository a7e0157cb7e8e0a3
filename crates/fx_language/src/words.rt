//! The words of a line, one after another.
ghost use Rattle.std.specs.Prelude.{◌≡◌, true, option_map};
ghost use Rattle.fx_language.specs.Cursor.{TakesWord, EndsWords, YieldsExpected};
ghost use Rattle.fx_language.specs.Line.{number_in, file_name_in, last_of, link_in};
ghost use Rattle.fx_language.specs.Lines.{is_printable};
ghost use Rattle.fx_language.specs.Parts.{parts_left};

use crate::fault::ScriptFault;
use crate::number;
use crate::parts::Parts;
use bitflags::Flags;
use fx_base::is_name;
use fx_chain::SqeFlags;

// Returns the next word; a missing one is a fault.
pub fn word<'a>(words: &mut Parts<'a>) -> Result<&'a [u8], ScriptFault>
    ensures { TakesWord (parts_left words.old) result (parts_left words.new) }
{
    words.next().ok_or(ScriptFault::WordCount)
}

// Checks that no word is left.
pub fn end(words: &mut Parts<'_>) -> Result<(), ScriptFault>
    ensures { EndsWords (parts_left words.old) result }
{
    match words.next() {
        Some(_) => Err(ScriptFault::WordCount),
        None => Ok(()),
    }
}

// Returns the last word of a request, if there is one; a further word is a fault.
pub fn last<'a>(words: &mut Parts<'a>) -> Result<Option<&'a [u8]>, ScriptFault>
    ensures { YieldsExpected (option_map (λ word. word.now)) result (last_of (parts_left words.old)) }
{
    let Some(word) = words.next() else {
        return Ok(None);
    };
    end(words)?;
    Ok(Some(word))
}

// Returns the flags of a request by its last word, which may link the next request.
pub fn link(last: Option<&[u8]>) -> Result<SqeFlags, ScriptFault>
    ensures { result ≡ link_in (option_map (λ word. word.now) last.entry) }
{
    match last {
        None => Ok(SqeFlags::empty()),
        Some(word) if word == b"link".as_slice() => Ok(SqeFlags::IO_LINK),
        Some(word) if word == b"hardlink".as_slice() => Ok(SqeFlags::IO_HARDLINK),
        Some(_) => Err(ScriptFault::BadWord),
    }
}

// Parses a word as a number.
pub fn number(word: &[u8]) -> Result<u32, ScriptFault>
    ensures { result ≡ number_in word.now }
{
    number::number(word).ok_or(ScriptFault::BadNumber)
}

// Returns a word as text.
#[tactic(auto, using(crate::proofs::FilesOfScripts::printable_is_text, crate::proofs::FilesOfScripts::text_is_ok))]
pub fn text(word: &[u8]) -> &str
    requires { is_printable word.now ≡ true }
    ensures { result.now ≡ word.now }
{
    std::str::from_utf8(word).unwrap()
}

// Returns a text as a name, or its fault.
pub fn name(text: &str) -> Result<&str, ScriptFault>
    ensures { YieldsExpected (λ name. name.now) result (file_name_in text.now) }
{
    if is_name(text.as_bytes()) {
        Ok(text)
    } else {
        Err(ScriptFault::BadName)
    }
}
