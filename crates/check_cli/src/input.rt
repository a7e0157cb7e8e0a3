//! The script and the text that the program reads, and the reasons for which it ends without a
//! verdict.
use crate::judging::MIB;
use check_explain::Lines;
use fx_arguments::Refusal;
use fx_arguments::fixcheck::{Asked, Settings};
use fx_base::NoMemory;
use fx_script::{Command, LONGEST_SCRIPT, PlayFault, Script, ScriptError};
use std::alloc::{AllocError, Global};
use std::fs::File;
use std::io::{self, ErrorKind, Read};

/// The reason for which the program ends without a verdict.
#[derive(Drop)]
pub enum NoVerdict {
    /// The words of the command line are refused.
    Refused(Refusal),
    /// Another reason: the exit status, and the words for standard error.
    Because(u8, String),
    /// The verdict could not be written, or an allocation failed.
    Fault(PlayFault),
}

/// The exit statuses of wrong arguments, an invalid script, a failed read or write, and a failed
/// allocation.
pub const ARGUMENTS: u8 = 2;

const SCRIPT: u8 = 3;

const FILES: u8 = 4;

const MEMORY: u8 = 5;

/// The largest number of bytes of a script that are read: one more than it may have.
const MOST_SCRIPT: u64 = LONGEST_SCRIPT as u64 + 1;

impl From<Refusal> for NoVerdict {
    fn from(refusal: Refusal) -> NoVerdict {
        NoVerdict::Refused(refusal)
    }
}

impl From<AllocError> for NoVerdict {
    fn from(_refused: AllocError) -> NoVerdict {
        NoVerdict::Fault(PlayFault::NoMemory)
    }
}

impl From<NoMemory> for NoVerdict {
    fn from(_refused: NoMemory) -> NoVerdict {
        NoVerdict::Fault(PlayFault::NoMemory)
    }
}

impl NoVerdict {
    /// Prints it: help and the version on standard output, and the others on standard error.
    /// Returns the exit status: 2 for wrong arguments, 3 for an invalid script, 4 for a failed read
    /// or write, 5 for a failed allocation. Help and the version return 0 if they were written.
    pub fn end(&self, rt: &HostRuntime) -> u8 {
        // Nothing can be done if standard error fails.
        match self {
            NoVerdict::Refused(refusal) => return refusal.end(rt, "fixcheck"),
            NoVerdict::Because(_, words) => {
                let _ = eprintln!(rt; "fixcheck: {words}");
            }
            NoVerdict::Fault(fault) => {
                let _ = eprintln!(rt; "fixcheck: {fault}");
            }
        }
        match self {
            NoVerdict::Because(status, _) => *status,
            NoVerdict::Fault(PlayFault::NoMemory) => MEMORY,
            _ => FILES,
        }
    }
}

// Returns the name of a path in messages.
fn name_of(path: &str) -> &str {
    if path == "-" { "standard input" } else { path }
}

// Returns the first bytes of a file, or of standard input for `-`: at most `most`.
fn bytes_of(rt: &HostRuntime, path: &str, most: u64) -> io::Result<Vec<u8>> {
    let mut bytes = Vec::new(rt.alloc());
    if path == "-" {
        rt.reader().take(most).read_to_end(&mut bytes)?;
    } else {
        File::open(rt, path)?.take(most).read_to_end(&mut bytes)?;
    }
    Ok(bytes)
}

// Reads the first bytes of a file, or of standard input for `-`: at most `most`. Fails with its
// path and the error if the read fails, and with `NoMemory` if an allocation fails.
fn read_path(rt: &HostRuntime, path: &str, most: u64) -> Result<Vec<u8>, NoVerdict> {
    let error = match bytes_of(rt, path, most) {
        Ok(bytes) => return Ok(bytes),
        Err(error) => error,
    };
    if error.kind() == ErrorKind::OutOfMemory {
        return Err(NoVerdict::Fault(PlayFault::NoMemory));
    }
    let words = format!(in rt.alloc(); "{} can't be read: {error}", name_of(path))?;
    Err(NoVerdict::Because(FILES, words))
}

/// Reads the bytes of a script from a file, or from standard input for `-`: of one that is too
/// long, only as many as show that.
///
/// # Errors
/// Its path and the error if the read fails, `NoMemory` if an allocation fails.
pub fn read_script(rt: &HostRuntime, path: &str) -> Result<Vec<u8>, NoVerdict> {
    read_path(rt, path, MOST_SCRIPT)
}

/// Reads the bytes of a text of at most `memory` MiB from a file, or from standard input for `-`.
///
/// # Errors
/// Its path and the error if the read fails or the text is longer, `NoMemory` if an allocation
/// fails.
pub fn read_text(rt: &HostRuntime, path: &str, memory: u32) -> Result<Vec<u8>, NoVerdict> {
    let most = u64::from(memory).saturating_mul(MIB as u64);
    let text = read_path(rt, path, most.saturating_add(1))?;
    if text.len() as u64 <= most {
        return Ok(text);
    }
    let name = name_of(path);
    let words = format!(in rt.alloc();
        "{name} can't be read: it has more than {memory} MiB; --memory gives another limit"
    )?;
    Err(NoVerdict::Because(FILES, words))
}

// Checks whether bytes are a script that has a file or a submission. A text of calls alone may be
// one without.
fn is_script(alloc: Global, source: &[u8]) -> Result<bool, NoVerdict> {
    let script = match Script::read(alloc, source) {
        Ok(script) => script,
        Err(ScriptError::Fault { .. }) => return Ok(false),
        Err(ScriptError::NoMemory) => return Err(NoVerdict::Fault(PlayFault::NoMemory)),
    };
    let mut commands = script.commands().iter();
    let submits = commands.any(|command| matches!(command, Command::Submit(_)));
    Ok(submits || script.catalogue().len() > 0)
}

// Checks whether a path is seen to lead to such a script.
fn leads_to_script(rt: &HostRuntime, path: &str) -> bool {
    match read_script(rt, path) {
        Ok(bytes) => matches!(is_script(rt.alloc(), &bytes), Ok(true)),
        Err(_) => false,
    }
}

/// Prints a note on standard error if a text is a script, which only a mistake in the arguments
/// makes it.
///
/// # Errors
/// `NoMemory` if an allocation fails.
pub fn note_script(rt: &HostRuntime, path: &str, text: &[u8]) -> Result<(), NoVerdict> {
    if is_script(rt.alloc(), text)? {
        let name = name_of(path);
        // The verdict holds whether the note is printed or not.
        let _ = eprintln!(rt; "fixcheck: {name} is a script, and not what a script printed");
    }
    Ok(())
}

/// Reads the script of a command line from its bytes.
///
/// # Errors
/// `NoMemory` if an allocation fails. If they aren't a script, its path and its first fault, and
/// whether the text is one, or else whether the faulty line has a carriage return.
pub fn script_of(
    rt: &HostRuntime,
    settings: Settings<'_>,
    source: &[u8],
) -> Result<Script, NoVerdict> {
    let fault = match Script::read(rt.alloc(), source) {
        Ok(script) => return Ok(script),
        Err(error) => PlayFault::from(error),
    };
    let PlayFault::Script { line, .. } = fault else {
        return Err(NoVerdict::Fault(fault));
    };
    let mut words = format!(in rt.alloc(); "{}: {fault}", name_of(settings.script))?;
    let faulty = Lines::new(source).after(line.saturating_sub(1) as usize);
    match settings.asked {
        Asked::Verdict(text) if leads_to_script(rt, text) => {
            write!(
                words,
                "; {} is a script, and SCRIPT comes before TEXT",
                name_of(text)
            )?;
        }
        _ if faulty.first().contains(&b'\r') => {
            words.push_str("; the line has a carriage return")?;
        }
        _ => {}
    }
    Err(NoVerdict::Because(SCRIPT, words))
}
