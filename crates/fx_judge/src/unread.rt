//! Why a log isn't read.
ghost use Rattle.std.specs.Prelude.{◌≡◌};
ghost use Rattle.fx_judge.specs.declared.unread.Unread.TheVariants.{NoMemory};

use std::alloc::{AllocError, AllocFailed};

/// The first thing that is wrong with a log as C passes it.
#[derive(Clone, Copy, Debug, PartialEq, Eq)]
pub enum LogRefusal {
    /// The table has more than `MOST_LOG_SLOTS` slots.
    TooManySlots,
    /// A catalogue of the files before the one at this position, from 0, refuses it, or its name or
    /// its bytes are past the array.
    BadFile(usize),
    /// An event can't be read.
    Malformed {
        /// The position of the event, from 0.
        at: usize,
        /// The number of the flaw.
        flaw: u32,
    },
}

/// The reason why a log isn't read.
#[derive(Clone, Copy, Debug, PartialEq, Eq, Drop)]
pub enum Unread {
    /// The log is refused.
    Refused(LogRefusal),
    /// An allocation failed.
    NoMemory,
}

impl From<AllocError> for Unread {
    ghost from_gives = { λ _ e. e ≡ NoMemory };

    fn from(_refused: AllocError) -> Unread {
        Unread::NoMemory
    }
}

impl<T: Drop> From<AllocFailed<T>> for Unread {
    ghost from_gives = { λ _ e. e ≡ NoMemory };

    fn from(_refused: AllocFailed<T>) -> Unread {
        Unread::NoMemory
    }
}
