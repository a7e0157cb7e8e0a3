//! The faults of a script.
ghost use Rattle.std.specs.Prelude.{◌≡◌};
ghost use Rattle.fx_language.specs.declared.fault.LineError.TheVariants.{Fault, NoMemory};

use std::alloc::{AllocError, AllocFailed};
use std::error::Error;
use std::fmt;

/// A fault of a script's line. The faults of a line are checked in the order of the variants. Its
/// text is the name that the program prints.
#[derive(Clone, Copy, Debug, PartialEq, Eq)]
pub enum ScriptFault {
    /// The script has more than 4,194,304 bytes. The fault is on line 0.
    LongScript,
    /// The line has more than 10,000 bytes.
    LongLine,
    /// The line has a byte outside 32 to 126.
    NotText,
    /// The first word isn't a command.
    UnknownCommand,
    /// A `file` line follows another command.
    LateFile,
    /// The command has the wrong number of words.
    WordCount,
    /// The third word of an `open` is neither `at` nor `any`, or the last word of a request neither
    /// `link` nor `hardlink`.
    BadWord,
    /// The bytes of a file are neither `-` nor an even number of hexadecimal digits, at least two.
    BadHex,
    /// The file would be the 257th of the catalogue.
    CatalogueFull,
    /// The name isn't 1 to 32 letters, digits, `.`, `_` or `-`.
    BadName,
    /// The catalogue has a file with this name already.
    SameName,
    /// The file has more than 4,096 bytes.
    LongFile,
    /// The word isn't a number up to 2,147,483,647 in decimal without a leading zero.
    BadNumber,
    /// An entry of the list is neither a number, nor `-` and a number other than 0.
    BadEntry,
    /// A tag of the list isn't a number up to 18,446,744,073,709,551,615 in decimal without a
    /// leading zero.
    BadTag,
    /// Requests follow the last `submit`. The fault is on the line of the first of them, and comes
    /// after all other faults.
    Unsubmitted,
}

impl ScriptFault {
    // Returns the name that the program prints.
    fn name(self) -> &'static str {
        match self {
            ScriptFault::LongScript => "long-script",
            ScriptFault::LongLine => "long-line",
            ScriptFault::NotText => "not-text",
            ScriptFault::UnknownCommand => "unknown-command",
            ScriptFault::LateFile => "late-file",
            ScriptFault::WordCount => "word-count",
            ScriptFault::BadWord => "bad-word",
            ScriptFault::BadHex => "bad-hex",
            ScriptFault::CatalogueFull => "catalogue-full",
            ScriptFault::BadName => "bad-name",
            ScriptFault::SameName => "same-name",
            ScriptFault::LongFile => "long-file",
            ScriptFault::BadNumber => "bad-number",
            ScriptFault::BadEntry => "bad-entry",
            ScriptFault::BadTag => "bad-tag",
            ScriptFault::Unsubmitted => "unsubmitted",
        }
    }
}

impl fmt::Display for ScriptFault {
    fn fmt<W: fmt::Write>(&self, f: &mut fmt::Formatter<W>) -> fmt::Result {
        f.write_str(self.name())
    }
}

impl Error for ScriptFault {}

/// The reason why bytes were not read as a script.
#[derive(Clone, Copy, Debug, PartialEq, Eq)]
pub enum ScriptError {
    /// The bytes aren't a script.
    Fault {
        /// The line with the first fault, from 1, or 0 if the script is too long.
        line: u32,
        /// The fault.
        kind: ScriptFault,
    },
    /// An allocation for the script failed, at any line.
    NoMemory,
}

// The reason why a line was not accepted.
#[derive(Drop)]
pub enum LineError {
    // The line has a fault.
    Fault(ScriptFault),
    // An allocation failed.
    NoMemory,
}

impl From<ScriptFault> for LineError {
    ghost from_gives = { λ fault e. e ≡ Fault fault };

    fn from(fault: ScriptFault) -> LineError {
        LineError::Fault(fault)
    }
}

impl From<AllocError> for LineError {
    ghost from_gives = { λ _ e. e ≡ NoMemory };

    fn from(_refused: AllocError) -> LineError {
        LineError::NoMemory
    }
}

impl<T: Drop> From<AllocFailed<T>> for LineError {
    ghost from_gives = { λ _ e. e ≡ NoMemory };

    fn from(_refused: AllocFailed<T>) -> LineError {
        LineError::NoMemory
    }
}
