//! The lines of requests.
ghost use Rattle.std.specs.Prelude.{◌≡◌, true};
ghost use Rattle.std.specs.List.{list_all};
ghost use Rattle.fx_language.specs.Line.{open_at, open_any, open_of, read_of, close_line_of, update_of, request_of};
ghost use Rattle.fx_language.specs.LineView.{request_in};
ghost use Rattle.fx_language.specs.Lines.{is_printable};
ghost use Rattle.fx_language.specs.Parts.{parts_left};
ghost use Rattle.fx_language.specs.ScriptView.{YieldsOrFails};

use crate::fault::{LineError, ScriptFault};
use crate::list::entries;
use crate::parts::Parts;
use crate::words::{last, link, name, number, text, word};
use bitflags::Flags;
use fx_chain::{Op, Request, SqeFlags, Target};
use std::alloc::Global;

// Parses the words after `open NAME at`: the slot, and perhaps a link.
fn open_at(alloc: Global, file: &str, words: &mut Parts<'_>) -> Result<Request, LineError>
    ensures { YieldsOrFails request_in result (open_at file.now (parts_left words.old)) }
{
    let slot = word(words)?;
    let last = last(words)?;
    let name = name(file)?;
    let target = Target::Slot(number(slot)?);
    let flags = link(last)?;
    let name = String::from_str(alloc, name)?;
    Ok(Request {
        op: Op::Open { name, target },
        flags,
    })
}

// Parses the words after `open NAME any`: perhaps a link.
fn open_any(alloc: Global, file: &str, words: &mut Parts<'_>) -> Result<Request, LineError>
    ensures { YieldsOrFails request_in result (open_any file.now (parts_left words.old)) }
{
    let last = last(words)?;
    let name = name(file)?;
    let target = Target::Any;
    let flags = link(last)?;
    let name = String::from_str(alloc, name)?;
    Ok(Request {
        op: Op::Open { name, target },
        flags,
    })
}

// Parses the words after `open`. Requires that they are printable, as those of a line are.
fn open(alloc: Global, words: &mut Parts<'_>) -> Result<Request, LineError>
    requires { list_all is_printable (parts_left words.old) ≡ true }
    ensures { YieldsOrFails request_in result (open_of (parts_left words.old)) }
{
    let file = text(word(words)?);
    let place = word(words)?;
    if place == b"at".as_slice() {
        open_at(alloc, file, words)
    } else if place == b"any".as_slice() {
        open_any(alloc, file, words)
    } else {
        Err(LineError::Fault(ScriptFault::BadWord))
    }
}

// Parses the words after `read`. A read names its file by a slot; no other request does.
fn read(words: &mut Parts<'_>) -> Result<Request, LineError>
    ensures { YieldsOrFails request_in result (read_of (parts_left words.old)) }
{
    let slot = word(words)?;
    let off = word(words)?;
    let len = word(words)?;
    let last = last(words)?;
    let slot = number(slot)?;
    let off = number(off)?;
    let len = number(len)?;
    let flags = SqeFlags::FIXED_FILE.union(link(last)?);
    Ok(Request {
        op: Op::Read { slot, off, len },
        flags,
    })
}

// Parses the words after `close`.
fn close(words: &mut Parts<'_>) -> Result<Request, LineError>
    ensures { YieldsOrFails request_in result (close_line_of (parts_left words.old)) }
{
    let slot = word(words)?;
    let last = last(words)?;
    let slot = number(slot)?;
    let flags = link(last)?;
    Ok(Request {
        op: Op::Close { slot },
        flags,
    })
}

// Parses the words after `update`.
fn update(alloc: Global, words: &mut Parts<'_>) -> Result<Request, LineError>
    ensures { YieldsOrFails request_in result (update_of (parts_left words.old)) }
{
    let off = word(words)?;
    let list = word(words)?;
    let last = last(words)?;
    let off = number(off)?;
    let list = entries(alloc, list)?;
    let flags = link(last)?;
    Ok(Request {
        op: Op::Update { off, list },
        flags,
    })
}

// Parses the words after a request's command, or returns their first fault.
pub fn request(alloc: Global, command: &[u8], words: &mut Parts<'_>) -> Result<Request, LineError>
    requires { list_all is_printable (parts_left words.old) ≡ true }
    ensures { YieldsOrFails request_in result (request_of command.now (parts_left words.old)) }
{
    if command == b"open".as_slice() {
        open(alloc, words)
    } else if command == b"read".as_slice() {
        read(words)
    } else if command == b"close".as_slice() {
        close(words)
    } else if command == b"update".as_slice() {
        update(alloc, words)
    } else {
        Err(LineError::Fault(ScriptFault::UnknownCommand))
    }
}
