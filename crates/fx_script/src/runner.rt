//! A run: reading a script and playing it, and the reasons why a run ends early.
ghost use Rattle.std.specs.Prelude.{◌≡◌, ◌+◌, ◌≤◌};
ghost use Rattle.fx_script.specs.Words.{IfErr, IfOk, IfSome, OnOk, take, MAX_PASSES};
ghost use Rattle.fx_language.specs.declared.limits.TheConstants.{LONGEST_SCRIPT};
ghost use Rattle.fx_script.specs.Run.{IsInput, IsInputFault, IsRun, IsRunFault};
ghost use Rattle.fx_script.specs.RunView.{play_fault};
ghost use Rattle.fx_script.specs.declared.runner.PlayFault.TheVariants.{NoMemory};

use crate::player::play;
use fx_chain::Gate;
use fx_language::{LONGEST_SCRIPT, Script, ScriptError, ScriptFault};
use fx_table::FileTable;
use std::alloc::{AllocError, Global};
use std::io::{Read, Write};
use std::sync::Wait;
use std::thread::Threads;
use thiserror::Error;

/// The reason why a run ended early. Its text is what the program prints.
#[derive(Clone, Copy, Debug, PartialEq, Eq, Error)]
pub enum PlayFault {
    /// The input was not read to its end: a read failed, or there were too many reads. Nothing was
    /// written.
    #[error("read failed")]
    Read,
    /// The input isn't a script. Nothing was written.
    #[error("line {line}: {kind}")]
    Script {
        /// The line with the first fault, from 1, or 0 if the script is too long.
        line: u32,
        /// The fault.
        kind: ScriptFault,
    },
    /// A write failed. How much of the last text was written is unknown.
    #[error("write failed")]
    Write,
    /// An allocation failed. The text of the first commands was written.
    #[error("out of memory")]
    NoMemory,
}

impl From<AllocError> for PlayFault {
    ghost from_gives = { λ _ e. e ≡ NoMemory };

    fn from(_refused: AllocError) -> PlayFault {
        PlayFault::NoMemory
    }
}

impl From<ScriptError> for PlayFault {
    ghost from_gives = { λ error fault. fault ≡ play_fault error };

    fn from(error: ScriptError) -> PlayFault {
        match error {
            ScriptError::Fault { line, kind } => PlayFault::Script { line, kind },
            ScriptError::NoMemory => PlayFault::NoMemory,
        }
    }
}

/// The greatest number of reads of a run.
const MOST_TURNS: u32 = 8_388_608;

/// The greatest number of bytes that are kept: one more than a script may have.
const MOST_BYTES: usize = LONGEST_SCRIPT + 1;

// Returns the first bytes, at most `most`.
fn front(bytes: &[u8], most: usize) -> &[u8]
    ensures { result.now ≡ take most bytes.now }
{
    &bytes[..most.min(bytes.len())]
}

// Reads to the end, and keeps only as many bytes as show that a script is too long. An interrupted
// read is a failed read.
fn read_all<I: Read>(alloc: Global, reader: &mut I) -> Result<Vec<u8>, PlayFault>
    ensures kept { IfOk result (λ input. IfSome (I.remaining reader.old)
        (λ bytes. input.items ≡ take (LONGEST_SCRIPT + 1) bytes)) }
    ensures fault { IfErr result (IsInputFault (I.remaining reader.old)) }
{
    let mut input = Vec::new(alloc);
    let mut buffer = [0u8; 4096];
    'reading: for _ in 0..MOST_TURNS {
        let Ok(n) = reader.read(&mut buffer) else {
            return Err(PlayFault::Read);
        };
        if n == 0 {
            return Ok(input);
        }
        let room = MOST_BYTES - input.len();
        input.extend_from_slice(front(&buffer[..n], room))?;
    }
    Err(PlayFault::Read)
}

// Reads a script. Its bytes are freed, and its meaning is kept.
fn read_script<I: Read>(alloc: Global, reader: &mut I) -> Result<Script, PlayFault>
    ensures script { IfOk result (IsInput (I.remaining reader.old)) }
    ensures fault { IfErr result (IsInputFault (I.remaining reader.old)) }
{
    let input = read_all(alloc, reader)?;
    let script = Script::read(alloc, input.as_slice())?;
    Ok(script)
}

/// Reads a script to its end and plays it as [`play`] does. Requires 1 to [`fx_table::MAX_PASSES`]
/// workers.
///
/// # Errors
/// `Read` if a read fails or is interrupted, or if the end isn't reached after 8,388,608 reads.
/// `Script` if the input isn't a script, with its fault. In both cases nothing is written. `Write`
/// and `NoMemory` as in [`play`].
pub fn run<T: FileTable, G: Gate, R: Read, W: Write>(
    rt: &(impl Threads + Wait + Sync),
    alloc: Global,
    workers: u32,
    gate: &G,
    reader: &mut R,
    writer: &mut W,
) -> Result<(), PlayFault>
    requires workers { (1 ≤ workers) × (workers ≤ MAX_PASSES) }
    ensures ok { OnOk result
        (IsRun (R.remaining reader.old) (W.contents writer.old) (W.contents writer.new)) }
    ensures fault { IfErr result (λ fault. IsRunFault fault
        (R.remaining reader.old) (W.contents writer.old) (W.contents writer.new)) }
{
    let script = read_script(alloc, reader)?;
    play::<T, G, W>(rt, alloc, script, workers, gate, writer)
}
