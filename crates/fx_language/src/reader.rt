//! The reader of a script, line by line.
ghost use Rattle.std.specs.Prelude.{◌≡◌, ◌∷◌, ◌++◌, [], IfOk, MatchResult, Ok, Some, ok_or};
ghost use Rattle.fx_chain.specs.Operation.{asked_of};
ghost use Rattle.fx_language.specs.Line.{RequestLine};
ghost use Rattle.fx_language.specs.LineView.{line_in};
ghost use Rattle.fx_language.specs.Lines.{is_printable, is_skipped};
ghost use Rattle.fx_language.specs.Script.{after_file, after_line, after_text, nothing, with_command};
ghost use Rattle.fx_language.specs.ScriptView.{progress_of, IsExpected, TakesExpected};
ghost use Rattle.fx_language.specs.Instruction.{instruction_of};
ghost use Rattle.fx_language.specs.Words.{hex_of};

use crate::command::Command;
use crate::fault::{LineError, ScriptFault};
use crate::limits::LONGEST_LINE;
use crate::line::{Line, parse};
use fx_base::{AddFault, Catalogue};
use fx_chain::Request;
use hex::FromHexError;
use std::alloc::Global;

// The result of the lines that were read so far.
#[derive(Drop)]
pub struct Reader {
    pub catalogue: Catalogue,
    pub commands: Vec<Command>,
    // The requests that wait for the next submission.
    pub waiting: Vec<Request>,
    // The line of the first of them.
    pub first_waiting: u32,
}

fn is_printable(bytes: &[u8]) -> bool
    ensures { result ≡ is_printable bytes.now }
{
    bytes.iter().all(|b| matches!(*b, 32..=126))
}

fn is_skipped(line: &[u8]) -> bool
    ensures { result ≡ is_skipped line.now }
{
    line.is_empty() || line[0] == b'#'
}

// Parses the bytes of a file: hexadecimal digits, or `-` for none.
fn file_bytes(alloc: Global, hex: &[u8]) -> Result<Vec<u8>, LineError>
    ensures { MatchResult result (λ bytes. hex_of hex.now ≡ Some bytes.items)
        (λ e. IsExpected e (ok_or (hex_of hex.now) ScriptFault.BadHex)) }
{
    if hex == b"-".as_slice() {
        return Ok(Vec::new(alloc));
    }
    if hex.is_empty() {
        return Err(LineError::Fault(ScriptFault::BadHex));
    }
    match hex::decode(alloc, hex) {
        Ok(bytes) => Ok(bytes),
        Err(FromHexError::OutOfMemory) => Err(LineError::NoMemory),
        Err(_) => Err(LineError::Fault(ScriptFault::BadHex)),
    }
}

impl Reader {
    // Creates a reader before the first line.
    pub fn new(alloc: Global) -> Reader
        ensures { progress_of result ≡ nothing }
    {
        Reader {
            catalogue: Catalogue::new(alloc),
            commands: Vec::new(alloc),
            waiting: Vec::new(alloc),
            first_waiting: 0,
        }
    }

    // Adds a file.
    fn take_file(&mut self, alloc: Global, name: &str, hex: &[u8]) -> Result<(), LineError>
        ensures { TakesExpected (after_file (progress_of self.old) name.now hex.now)
            result (progress_of self.new) }
    {
        let bytes = file_bytes(alloc, hex)?;
        let name = String::from_str(alloc, name)?;
        match self.catalogue.add(name, bytes) {
            Ok(()) => Ok(()),
            Err(AddFault::TooMany) => Err(LineError::Fault(ScriptFault::CatalogueFull)),
            Err(AddFault::EmptyName) => Err(LineError::Fault(ScriptFault::BadName)),
            Err(AddFault::BadName) => Err(LineError::Fault(ScriptFault::BadName)),
            Err(AddFault::SameName) => Err(LineError::Fault(ScriptFault::SameName)),
            Err(AddFault::TooLong) => Err(LineError::Fault(ScriptFault::LongFile)),
            Err(AddFault::NoMemory) => Err(LineError::NoMemory),
        }
    }

    // Adds a command.
    fn take_command(&mut self, command: Command) -> Result<(), LineError>
        ensures { TakesExpected (Ok (with_command (progress_of self.old) (instruction_of command)))
            result (progress_of self.new) }
    {
        self.commands.push(command)?;
        Ok(())
    }

    // Adds a request of the `n`-th line to those that wait.
    fn take_request(&mut self, n: u32, request: Request) -> Result<(), LineError>
        ensures { TakesExpected (after_line n (progress_of self.old) (RequestLine (asked_of request)))
            result (progress_of self.new) }
    {
        let first = self.waiting.is_empty();
        self.waiting.push(request)?;
        if first {
            self.first_waiting = n;
        }
        Ok(())
    }

    // Adds the content of the `n`-th line.
    fn take_line(&mut self, alloc: Global, n: u32, line: Line<'_>) -> Result<(), LineError>
        ensures { TakesExpected (after_line n (progress_of self.old) (line_in line.entry))
            result (progress_of self.new) }
    {
        match line {
            Line::File { name, hex } => self.take_file(alloc, name, hex),
            Line::Command(command) => self.take_command(command),
            Line::Request(request) => self.take_request(n, request),
            Line::Submit => {
                let requests = std::mem::replace(&mut self.waiting, Vec::new(alloc));
                self.take_command(Command::Submit(requests))
            }
        }
    }

    // Reads the `n`-th line, which may be skipped.
    pub fn take_text(&mut self, alloc: Global, n: u32, text: &[u8]) -> Result<(), LineError>
        ensures { TakesExpected (after_text n (progress_of self.old) text.now)
            result (progress_of self.new) }
    {
        if text.len() > LONGEST_LINE {
            return Err(LineError::Fault(ScriptFault::LongLine));
        }
        if !is_printable(text) {
            return Err(LineError::Fault(ScriptFault::NotText));
        }
        if is_skipped(text) {
            return Ok(());
        }
        let late = !(self.commands.is_empty() && self.waiting.is_empty());
        let line = parse(alloc, text, late)?;
        self.take_line(alloc, n, line)
    }
}
