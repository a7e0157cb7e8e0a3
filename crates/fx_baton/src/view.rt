//! The values that contracts see of seats and passes, and the calls of a turn.
use fx_base::Closed;
use fx_plain::{Event, PlainTable};
use fx_table::Task;
use std::collections::LinkedList;
use std::snapshot::Snapshot;

/// The start of a shared table, for contracts alone: the table that was opened, and the numbers of
/// chains and passes.
#[derive(Drop)]
pub struct Start {
    /// The table as it was opened.
    pub plain: Snapshot<PlainTable>,
    /// The number of chains; they are numbered from 1.
    pub chains: u32,
    /// The number of passes; they are numbered from 1.
    pub passes: u32,
}

/// The events that one pass has seen and made, as contracts see them. No code creates a value of
/// it.
pub struct Log {
    /// The number of the pass, from 1.
    pub number: u32,
    /// The history that the pass has seen, the newest event first.
    pub front: LinkedList<Event>,
    /// The events that the pass has made, the newest first.
    pub own: LinkedList<Event>,
}

/// The knowledge of a seat at the table, as contracts see it. No code creates a value of it.
pub struct View {
    /// The start of the table.
    pub start: Start,
    /// The passes of the seat: exactly one, except while the table is opened or closed.
    pub logs: LinkedList<Log>,
    /// The activity of the seat's pass.
    pub doing: Task,
    /// The table as it was when the seat took it, while the seat has it.
    pub loan: Option<PlainTable>,
    /// The history that the seat shows, an initial part of the table's history.
    pub known: LinkedList<Event>,
}

/// A call that a pass made while it had the table. Slots come first, then the new file's number and
/// its identity.
#[derive(Clone, Copy)]
pub enum Call {
    /// A look-up at a slot.
    Look(u32),
    /// The release of the file that the pass held.
    Release,
    /// An installation at a slot.
    Put(u32, u32, Closed),
    /// An installation at an empty slot of the allocation range.
    Allocate(u32, u32, Closed),
    /// An installation for which no slot of the range was empty.
    Full,
    /// The emptying of a slot for an update.
    Clear(u32),
    /// The emptying of a slot for a close.
    Take(u32),
    /// The retirement of the file that the pass removed.
    Retire,
}
