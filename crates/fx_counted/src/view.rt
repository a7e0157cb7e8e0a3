//! The values that contracts see of seats and passes.
use fx_plain::{Event, PlainTable};
use fx_table::Task;
use std::collections::LinkedList;
use std::snapshot::Snapshot;

/// The start of a lock-free table, for contracts alone: the table that was opened, the numbers of
/// chains and passes, and the number of file numbers of each chain.
#[derive(Drop)]
pub struct Start {
    /// The table as it was opened.
    pub plain: Snapshot<PlainTable>,
    /// The number of chains; they are numbered from 1.
    pub chains: u32,
    /// The number of passes; they are numbered from 1.
    pub passes: u32,
    /// The number of file numbers of each chain.
    pub numbers: u32,
}

/// The events that one pass has seen, and its counters, as contracts see them. No code creates a
/// value of it.
pub struct Log {
    /// The number of the pass, from 1.
    pub number: u32,
    /// The history that the pass has seen, the newest event first.
    pub front: LinkedList<Event>,
    /// The chains that the pass drew, the last one first.
    pub drawn: LinkedList<u32>,
    /// The flag that a draw has returned `None`.
    pub no_chains_left: bool,
    /// The number of file numbers of its last chain that the pass has left; they are the last ones.
    pub numbers_left: u32,
    /// The number of look-ups that the pass has left.
    pub looks_left: u32,
    /// The number of atomic steps that the pass has made.
    pub steps: u64,
}

/// The activity of a seat's pass between two steps, as contracts see it. No code creates a value of
/// it.
pub enum Work {
    /// The activity of a pass between two calls.
    Between(Task),
    /// The pass has the place of a number, whose file it is about to install.
    Placing(u32),
    /// The pass has the place of a number, whose file is closed.
    Emptying(u32),
}

/// The change that a pass is in, if it is about to change a slot of the allocation range: the
/// difference in the number of full slots that it hasn't reported yet, as contracts see it. No code
/// creates a value of it.
pub enum Change {
    /// The pass is in no change.
    Outside,
    /// The pass is in a change, and the number is the same.
    Same,
    /// One more slot is full.
    More,
    /// One slot fewer is full.
    Less,
}

/// The knowledge of a seat at the table, as contracts see it. No code creates a value of it.
pub struct View {
    /// The start of the table.
    pub start: Start,
    /// The passes of the seat: exactly one, except while the table is opened or closed.
    pub logs: LinkedList<Log>,
    /// The activity of the seat's pass.
    pub work: Work,
    /// The change that the seat's pass is in.
    pub change: Change,
    /// The history that the seat shows, an initial part of the table's history.
    pub known: LinkedList<Event>,
}
