use fx_plain::{Event, File};
use std::collections::LinkedList;
use table_range::{Change, Survey};

/// The opening of a lasting table, for contracts alone: the number of slots, which were empty, the
/// allocation range, the number of passes, and the number of those that install files.
#[derive(Drop)]
pub struct Start {
    /// The number of slots.
    pub size: u32,
    /// The first slot of the allocation range.
    pub range_start: u32,
    /// The number of slots of the allocation range.
    pub range_len: u32,
    /// The passes are 1 to this number.
    pub passes: u32,
    /// Those from 1 to this number install files.
    pub installing: u32,
}

/// The log of one pass, as contracts see it. No value of it is made.
pub struct Log {
    /// The number of the pass, from 1.
    pub number: u32,
    /// The history that the pass has seen, the newest event first.
    pub front: LinkedList<Event>,
    /// The number of atomic steps that the pass has made.
    pub steps: u64,
    /// The list of passes has the pass's bit.
    pub listed: bool,
    /// Its question whether the allocation range is full.
    pub asked: Survey,
    /// The nodes that it has in stock for its next files: no slot names them.
    pub stock: LinkedList<u32>,
    /// The words that it watches.
    pub watch: Watch,
    /// The slots whose words it found changed since it had seen them, by other passes, the newest
    /// first.
    pub changed: LinkedList<u32>,
}

/// The words that a pass watches for changes by other passes, as contracts see it. No value of it
/// is made.
pub struct Watch {
    /// The slot whose word the pass loaded last. It is `MOST_SLOTS` if the pass has loaded none, or
    /// has changed such a word itself since.
    pub slot: u32,
    /// The word that it found.
    pub word: u64,
    /// The history that it had seen then.
    pub front: LinkedList<Event>,
    /// It set its bit in the question word, and hasn't cleared the word since.
    pub asks: bool,
    /// The number of its steps that met another pass in the middle of a call: a slot had more heat
    /// than before, or a group's word didn't count each full slot, or the question word had lost
    /// the pass's bit.
    pub met: u64,
}

/// The progress of a retirement's round through the other passes, as contracts see it. No value of
/// it is made.
pub struct Round {
    /// It has visited the passes before this one that it has to visit.
    pub next: u32,
    /// The number of words of the list that it has loaded.
    pub words: u32,
    /// The last of them. It need not visit a pass without its bit there.
    pub last: u64,
    /// The pass held the file by its own hold word, which names the node still.
    pub guarded: bool,
}

/// The words that a pass has stored of the label of the file that it is about to install, as
/// contracts see them. No value of it is made.
pub enum Written {
    /// Neither word.
    Nothing,
    /// The tag.
    Tag(u64),
    /// The tag, and the number.
    Label(u64, u64),
}

/// The state of the file that a pass is about to install, as contracts see it. No value of it is
/// made.
pub struct Placement {
    /// The number of takes that the word of the file's node has lost, and with which the word of
    /// the slot begins.
    pub lost: u64,
    /// The words of the file's label that the pass has stored.
    pub written: Written,
}

/// The work of a seat's pass between two steps, as contracts see it. A node is named by its number.
/// No value of it is made.
pub enum Work {
    /// Nothing.
    Idle,
    /// Its hold word names the node, and it holds nothing yet.
    Announced(u32),
    /// It holds the file of the node by a take.
    Counted(File, u32),
    /// It holds the file of the node by its hold word.
    Guarded(File, u32),
    /// Its announcement of the node was charged and withdrawn, and it has still to subtract the
    /// charge.
    Owing(u32),
    /// Its hold of the file of the node was charged, and it has still to subtract the charge, which
    /// is its release.
    Yielding(File, u32),
    /// It looks for a free node of its stock, and this one is free.
    Searching(u32),
    /// It has the place of the node, whose file it is about to install, and has come so far.
    Placing(u32, Placement),
    /// It holds the file of the first node by a take, and has the place of the second node, whose
    /// file it is about to install in place of the held file, and has come so far.
    Renewing(File, u32, u32, Placement),
    /// Its hold word names the first node, it holds nothing yet, and it has the place of the second
    /// node, whose file it is about to install, and has come so far.
    Nearing(u32, u32, Placement),
    /// It holds the file of the first node by its hold word, and has the place of the second node,
    /// whose file it is about to install in place of the held file, and has come so far.
    Relieving(File, u32, u32, Placement),
    /// It removed the file of the node with this many takes, has come so far on its round through
    /// the other passes, and made this many charges.
    Retiring(File, u32, u32, Round, u32),
    /// It has the place of the node, whose file is closed.
    Emptying(u32),
    /// It keeps the node of its stock for its next file. The node's word is that of a birth, less
    /// this many takes, which it has lost.
    Keeping(u32, u64),
}

/// The progress of a pass's look-up, as contracts see it. No value of it is made.
pub enum Glance {
    /// It looks nothing up.
    None,
    /// It saw the slot name the node, and hot.
    Hot(u32, u32),
    /// It is about to take what the slot names.
    Cold(u32),
    /// It took what the slot named when the slot had its takes, and has still to make the slot hot.
    Heating(u32),
}

/// The knowledge of a seat at the table, as contracts see it. No value of it is made.
pub struct View {
    /// The opening of the table.
    pub start: Start,
    /// The passes of the seat: one, but while the table is opened and closed.
    pub logs: LinkedList<Log>,
    /// The present work of the seat's pass.
    pub work: Work,
    /// The progress of its look-up.
    pub glance: Glance,
    /// Its account with the groups' words.
    pub change: Change,
    /// The history that the seat shows, an initial part of the table's history.
    pub known: LinkedList<Event>,
}
