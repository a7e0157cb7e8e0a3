//! The limits of the searches of one judgement.

use check_search::Limits;
use std::cell::Cell;

/// The limits of the searches of one judgement of a log.
#[derive(Clone, Copy)]
pub struct LogLimits {
    /// The limits of each search of states.
    pub search: Limits,
    /// The largest number of moves of all searches together: states that a search tries or follows.
    /// The search for a reason makes none.
    pub moves: u64,
}

/// The number of moves that are left, or `None` once a search lacked one.
#[derive(Drop)]
pub(crate) struct MovesLeft {
    left: Cell<Option<u64>>,
}

impl MovesLeft {
    /// Returns this number of moves.
    pub(crate) fn new(moves: u64) -> MovesLeft {
        MovesLeft {
            left: Cell::new(Some(moves)),
        }
    }

    /// Takes a move. Returns whether one was left.
    pub(crate) fn spend(&self) -> bool {
        let left = self.left.get().and_then(|left| left.checked_sub(1));
        self.left.set(left);
        left.is_some()
    }

    /// Checks whether a search lacked a move.
    pub(crate) fn are_lacking(&self) -> bool {
        self.left.get().is_none()
    }
}
