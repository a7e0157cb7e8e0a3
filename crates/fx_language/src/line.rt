//! One line of a script.
ghost use Rattle.std.specs.Prelude.{◌≡◌, ◌∷◌, true};
ghost use Rattle.std.specs.List.{list_all};
ghost use Rattle.fx_language.specs.Line.{file_of, sparse_of, register_of, unregister_of, range_line_of, regupdate_of, submit_of, line_of};
ghost use Rattle.fx_language.specs.LineView.{line_in};
ghost use Rattle.fx_language.specs.Lines.{is_printable, words};
ghost use Rattle.fx_language.specs.Parts.{parts_left};
ghost use Rattle.fx_language.specs.ScriptView.{YieldsOrFails};

use crate::command::Command;
use crate::fault::{LineError, ScriptFault};
use crate::list::{entries, tags};
use crate::parts::Parts;
use crate::request::request;
use crate::words::{end, last, number, text, word};
use fx_chain::Request;
use std::alloc::Global;

// A line that isn't skipped.
#[derive(Drop)]
pub enum Line<'a> {
    // Adds a file to the catalogue; its name and bytes are still to be checked.
    File { name: &'a str, hex: &'a [u8] },
    // Adds a command other than `submit`.
    Command(Command),
    // Adds a request to the next submission.
    Request(Request),
    // Submits.
    Submit,
}

fn file<'a>(late: bool, words: &mut Parts<'a>) -> Result<Line<'a>, LineError>
    requires { list_all is_printable (parts_left words.old) ≡ true }
    ensures { YieldsOrFails line_in result (file_of late (parts_left words.old)) }
{
    if late {
        return Err(LineError::Fault(ScriptFault::LateFile));
    }
    let name = text(word(words)?);
    let hex = word(words)?;
    end(words)?;
    Ok(Line::File { name, hex })
}

fn sparse<'a>(words: &mut Parts<'a>) -> Result<Line<'a>, LineError>
    ensures { YieldsOrFails line_in result (sparse_of (parts_left words.old)) }
{
    let n = word(words)?;
    end(words)?;
    Ok(Line::Command(Command::Sparse(number(n)?)))
}

fn register<'a>(alloc: Global, words: &mut Parts<'a>) -> Result<Line<'a>, LineError>
    ensures { YieldsOrFails line_in result (register_of (parts_left words.old)) }
{
    let list = word(words)?;
    let last = last(words)?;
    let list = entries(alloc, list)?;
    let tags = tags(alloc, last)?;
    Ok(Line::Command(Command::Register(list, tags)))
}

fn unregister<'a>(words: &mut Parts<'a>) -> Result<Line<'a>, LineError>
    ensures { YieldsOrFails line_in result (unregister_of (parts_left words.old)) }
{
    end(words)?;
    Ok(Line::Command(Command::Unregister))
}

fn range<'a>(words: &mut Parts<'a>) -> Result<Line<'a>, LineError>
    ensures { YieldsOrFails line_in result (range_line_of (parts_left words.old)) }
{
    let off = word(words)?;
    let len = word(words)?;
    end(words)?;
    let off = number(off)?;
    let len = number(len)?;
    Ok(Line::Command(Command::Range(off, len)))
}

fn regupdate<'a>(alloc: Global, words: &mut Parts<'a>) -> Result<Line<'a>, LineError>
    ensures { YieldsOrFails line_in result (regupdate_of (parts_left words.old)) }
{
    let off = word(words)?;
    let list = word(words)?;
    let last = last(words)?;
    let off = number(off)?;
    let list = entries(alloc, list)?;
    let tags = tags(alloc, last)?;
    Ok(Line::Command(Command::Update(off, list, tags)))
}

fn submit<'a>(words: &mut Parts<'a>) -> Result<Line<'a>, LineError>
    ensures { YieldsOrFails line_in result (submit_of (parts_left words.old)) }
{
    end(words)?;
    Ok(Line::Submit)
}

// Parses the words after a line's first one, which is its command.
fn after_command<'a>(
    alloc: Global,
    command: &[u8],
    words: &mut Parts<'a>,
    late: bool,
) -> Result<Line<'a>, LineError>
    requires { list_all is_printable (parts_left words.old) ≡ true }
    ensures { YieldsOrFails line_in result (line_of late (command.now ∷ parts_left words.old)) }
{
    if command == b"file".as_slice() {
        file(late, words)
    } else if command == b"sparse".as_slice() {
        sparse(words)
    } else if command == b"register".as_slice() {
        register(alloc, words)
    } else if command == b"unregister".as_slice() {
        unregister(words)
    } else if command == b"range".as_slice() {
        range(words)
    } else if command == b"regupdate".as_slice() {
        regupdate(alloc, words)
    } else if command == b"submit".as_slice() {
        submit(words)
    } else {
        Ok(Line::Request(request(alloc, command, words)?))
    }
}

// Parses a line that isn't skipped, or returns its fault. Requests, lists and tags are allocated,
// so an allocation may fail before a fault is found. `late` says whether an earlier line isn't a
// `file` line.
pub fn parse(alloc: Global, line: &[u8], late: bool) -> Result<Line<'_>, LineError>
    requires { is_printable line.now ≡ true }
    ensures { YieldsOrFails line_in result (line_of late (words line.now)) }
{
    let mut words = Parts::new(line, b' ');
    let Some(command) = words.next() else {
        return Err(LineError::Fault(ScriptFault::UnknownCommand));
    };
    after_command(alloc, command, &mut words, late)
}
