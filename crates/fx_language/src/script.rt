//! Scripts, and reading them.
ghost use Rattle.std.specs.Prelude.{◌≡◌, ℕ, IfOk, IfErr, List};
ghost use Rattle.fx_language.specs.Script.{AreFiles, IsScript, at_end, reading_of};

use crate::command::Command;
use crate::fault::{LineError, ScriptError, ScriptFault};
use crate::limits::LONGEST_SCRIPT;
use crate::parts::Parts;
use crate::reader::Reader;
use fx_base::Catalogue;
use std::alloc::Global;
use std::marker::Model;

/// A script that was read: the files that its requests can open, and its commands in order.
#[derive(Drop)]
pub struct Script {
    catalogue: Catalogue,
    commands: Vec<Command>,
}

impl Model for Script {
    ghost use Rattle.fx_language.specs.Instruction.{instructions_of};
    ghost use Rattle.fx_language.specs.Script.{IsRead, Meaning};

    ghost Value = { Meaning };

    ghost view = { λ script. record {
      catalogue = script.catalogue;
      commands = instructions_of script.commands.items;
    } };

    ghost invariant = { λ script. IsRead (record {
      catalogue = script.catalogue;
      commands = instructions_of script.commands.items;
    }) };
}

impl Script {
    ghost use Rattle.fx_language.specs.Instruction.{instructions_of};
    ghost use Rattle.fx_language.specs.ScriptError.{IsFaultOf, ReadsScript};
    ghost use Rattle.fx_language.specs.ScriptView.{progress_of};

    /// Returns the files that its requests can open, in the order of their lines.
    pub fn catalogue(&self) -> &Catalogue
        ensures value { result.now ≡ self.now.catalogue }
        ensures files { AreFiles result.now }
    {
        &self.catalogue
    }

    /// Returns its commands, in order.
    pub fn commands(&self) -> &[Command]
        ensures { instructions_of result.now ≡ self.now.commands }
    {
        self.commands.as_slice()
    }

    /// Splits the script into its files and its commands.
    pub fn into_parts(self) -> (Catalogue, Vec<Command>)
        ensures catalogue { result.0 ≡ self.catalogue }
        ensures commands { instructions_of result.1.items ≡ self.commands }
    {
        (self.catalogue, self.commands)
    }

    // Returns the script, if no request waits for a submission.
    fn of(reader: Reader) -> Result<Script, ScriptError>
        requires { (bytes : List ℕ) × (reading_of bytes ≡ at_end (progress_of reader)) }
        ensures { ReadsScript (at_end (progress_of reader)) result }
    {
        if !reader.waiting.is_empty() {
            let kind = ScriptFault::Unsubmitted;
            let line = reader.first_waiting;
            return Err(ScriptError::Fault { line, kind });
        }
        Ok(Script {
            catalogue: reader.catalogue,
            commands: reader.commands,
        })
    }

    /// Reads bytes as a script, all of them. It allocates only what the script says.
    ///
    /// # Errors
    /// `Fault` if the bytes aren't a script: the first line with a fault, and that line's first
    /// fault in the order of [`ScriptFault`]. A script that is too long is refused before its lines
    /// are read, and `Unsubmitted` is returned only if no line has a fault. `NoMemory` if an
    /// allocation fails, at any line.
    pub fn read(alloc: Global, bytes: &[u8]) -> Result<Script, ScriptError>
        ensures script { IfOk result (λ script. IsScript bytes.now script) }
        ensures fault { IfErr result (IsFaultOf bytes.now) }
    {
        if bytes.len() > LONGEST_SCRIPT {
            let kind = ScriptFault::LongScript;
            return Err(ScriptError::Fault { line: 0, kind });
        }
        let mut reader = Reader::new(alloc);
        let mut line: u32 = 1;
        for text in Parts::new(bytes, b'\n') {
            match reader.take_text(alloc, line, text) {
                Ok(()) => {}
                Err(LineError::Fault(kind)) => return Err(ScriptError::Fault { line, kind }),
                Err(LineError::NoMemory) => return Err(ScriptError::NoMemory),
            }
            line += 1;
        }
        Script::of(reader)
    }
}
