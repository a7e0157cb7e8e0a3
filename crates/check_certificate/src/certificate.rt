//! The points in time of a flight, the orders between them, and the steps of a certificate.

use fx_base::Closed as File;

/// A point in time of a flight. Positions of events and numbers of accesses are from 0.
#[derive(Clone, Copy, Debug, PartialEq, Eq)]
pub enum Point {
    /// The event at a position of the log.
    Event(usize),
    /// An access of the member, or of the look, that the event at a position answers. The second
    /// number counts the accesses of that member.
    Access(usize, usize),
    /// The access that installs the file; the end of the flight if no access does.
    Put(File),
    /// The last time at which the file is at the slot, which is the access that removes it; the end
    /// of the flight if the file stays there, and its start if it is never there.
    Gone(File, u32),
}

/// One point comes before another one.
#[derive(Clone, Copy, Debug, PartialEq, Eq)]
pub struct PointOrder {
    /// The earlier point.
    pub from: Point,
    /// The later point.
    pub to: Point,
    /// True if the points differ in time; otherwise they may be at the same time.
    pub strict: bool,
}

/// An access that finds a file at a slot.
#[derive(Clone, Copy, Debug)]
pub struct Holding {
    /// The position of the call.
    pub call: usize,
    /// The position of the answer.
    pub answer: usize,
    /// The number of the access.
    pub access: usize,
    /// The slot.
    pub slot: u32,
    /// An earlier access that leaves another file or none there, so that files of before are gone:
    /// the positions of its call and its answer, and its number.
    pub since: (usize, usize, usize),
    /// The file that it finds.
    pub found: OnlyFile,
}

/// The only file that an access may find at a slot, and the order that follows.
#[derive(Clone, Copy, Debug, PartialEq, Eq)]
pub enum OnlyFile {
    /// No file may be there: a contradiction.
    Nothing,
    /// It was installed before: `Put(file) < Access(answer, access)`.
    PutBefore(File),
    /// It leaves the slot later: `Access(answer, access) <= Gone(file, slot)`.
    GoneAfter(File),
}

/// A step of a certificate: a rule, and what it is applied to. Each step adds one order to those
/// that are known. A field named for an order is the number of the earlier step that added it, from
/// 0. `call` is the position of the event that begins the call which the event at `answer` answers.
#[derive(Clone, Copy, Debug)]
pub enum Step {
    /// An event comes before a later event.
    Events {
        /// The position of the first event.
        earlier: usize,
        /// The position of the second event.
        later: usize,
    },
    /// A call comes before its accesses: `Event(call) < Access(answer, access)`.
    Begins {
        /// The position of the call.
        call: usize,
        /// The position of the answer.
        answer: usize,
        /// The number of the access.
        access: usize,
    },
    /// An access comes before the answer of its member: `Access(answer, access) < Event(answer)`.
    Ends {
        /// The position of the call.
        call: usize,
        /// The position of the answer.
        answer: usize,
        /// The number of the access.
        access: usize,
    },
    /// A call comes before it installs a file: `Event(call) < Put(file)`.
    Calls {
        /// The position of the call.
        call: usize,
        /// A file with the mark of one of the call's members.
        file: File,
    },
    /// An answered request has installed the file of one of its accesses:
    /// `Put(file) < Event(answer)`.
    Installs {
        /// The position of the call.
        call: usize,
        /// The position of the answer.
        answer: usize,
        /// The number of the access that installs the file.
        access: usize,
    },
    /// The file that an answered request installed is then at its slot:
    /// `Put(file) < Gone(file, slot)`.
    Places {
        /// The position of the call.
        call: usize,
        /// The position of the answer.
        answer: usize,
        /// The number of the access that installs the file.
        access: usize,
    },
    /// A file was installed before a look found it: `Put(file) < Access(answer, 0)`.
    Follows {
        /// The position of the call of the look.
        call: usize,
        /// The position of the look's answer.
        answer: usize,
    },
    /// A look found a file before it left its slot: `Access(answer, 0) < Gone(file, slot)`.
    Finds {
        /// The position of the call of the look.
        call: usize,
        /// The position of the look's answer.
        answer: usize,
    },
    /// A file left its slot before it was closed: `Gone(file, slot) < Event(close)`.
    Closes {
        /// The position of the close.
        close: usize,
        /// The slot.
        slot: u32,
    },
    /// A file that was installed before all was settled, and not closed, was still at its slot:
    /// `Event(settled) < Gone(file, slot)`.
    Settles {
        /// The position of the event `Settled`.
        settled: usize,
        /// The order `Put(file) < Event(settled)`.
        installed: usize,
        /// The order `Put(file) < Gone(file, slot)`.
        placed: usize,
    },
    /// An access that leaves a slot without a file comes after the file left it:
    /// `Gone(file, slot) <= Access(answer, access)`. It empties the slot, finds it empty, or finds
    /// another file.
    Empties {
        /// The position of the call.
        call: usize,
        /// The position of the answer.
        answer: usize,
        /// The number of the access.
        access: usize,
        /// The order `Put(file) <= Access(answer, access)`.
        installed: usize,
    },
    /// The same access, if the file is at the slot later: `Access(answer, access) < Put(file)`.
    Precedes {
        /// The position of the call.
        call: usize,
        /// The position of the answer.
        answer: usize,
        /// The number of the access.
        access: usize,
        /// The order `Access(answer, access) < Gone(file, slot)`.
        there: usize,
    },
    /// A file leaves its slot when another one is installed there:
    /// `Gone(file, slot) <= Put(other)`.
    Displaces {
        /// The order `Put(file) <= Put(other)`.
        installed: usize,
        /// The order `Put(other) < Gone(other, slot)`.
        placed: usize,
    },
    /// A file that is at a slot after another one was installed there was installed after it:
    /// `Put(other) < Put(file)`.
    Outlives {
        /// The order `Put(other) < Gone(file, slot)`.
        there: usize,
        /// The order `Put(other) < Gone(other, slot)`.
        placed: usize,
    },
    /// An order from the first point of one order to the second point of another one.
    Then {
        /// The first order.
        first: usize,
        /// The second order. It begins at the point at which the first one ends.
        second: usize,
    },
    /// An access finds a file at a slot, and each other file isn't there, by a known order or by
    /// the answer of its member, or has other bytes than the read answered.
    Holds(Holding),
    /// A file that was installed before an event is then at the only slot at which a request may
    /// install it: `Put(file) < Gone(file, slot)`.
    Lands {
        /// The slot.
        slot: u32,
        /// The order `Put(file) < Event(until)`.
        installed: usize,
    },
    /// A file that was installed before an event was never at a slot at which no request may
    /// install it: `Gone(file, slot) <= Put(file)`.
    Misses {
        /// The slot.
        slot: u32,
        /// The order `Put(file) < Event(until)`.
        installed: usize,
    },
    /// A file was installed before it was closed: `Put(file) < Event(close)`.
    Existed {
        /// The position of the close.
        close: usize,
    },
    /// A file is at its slot until an event, since no access of a call before the event takes it:
    /// `Event(until) < Gone(file, slot)`. Each access is at another time, by a known order or by
    /// the answer of its member.
    Stays {
        /// The position of the event.
        until: usize,
        /// The order `Event(since) < Gone(file, slot)`.
        there: usize,
    },
    /// A file that is gone before an event was taken by the only access that may take it:
    /// `taker <= Gone(file, slot)`.
    Takes {
        /// The time of that access: `Access(answer, access)` or `Put(other)`.
        taker: Point,
        /// The order `Event(since) < Gone(file, slot)`.
        there: usize,
        /// The order `Gone(file, slot) <= Event(until)`.
        gone: usize,
    },
    /// The same, the other way round: `Gone(file, slot) <= taker`.
    TakenBy {
        /// The time of that access: `Access(answer, access)` or `Put(other)`.
        taker: Point,
        /// The order `Event(since) < Gone(file, slot)`.
        there: usize,
        /// The order `Gone(file, slot) <= Event(until)`.
        gone: usize,
    },
    /// Accesses of different calls aren't at the same time: a strict order.
    Differs {
        /// The position of the call of the first access.
        call: usize,
        /// The position of the call of the second access.
        other: usize,
        /// The order of both accesses, which may be at the same time.
        order: usize,
    },
    /// A contradiction: a look's answer is a file that was closed before.
    FindsClosed {
        /// The position of the close.
        close: usize,
        /// The position of the look's answer.
        answer: usize,
    },
    /// A contradiction: a file was closed twice.
    ClosesTwice {
        /// The position of the first close.
        first: usize,
        /// The position of the second close.
        second: usize,
    },
    /// A contradiction: a file was closed while a look held it.
    ClosesHeld {
        /// The position of the look's answer.
        answer: usize,
        /// The position of the close.
        close: usize,
    },
    /// A contradiction: a request can't have its answer, whatever its accesses find.
    CantAnswer {
        /// The position of the call.
        call: usize,
        /// The position of the answer.
        answer: usize,
    },
    /// The file of a member that failed is never installed: `Event(event) < Put(file)`.
    Fails {
        /// The position of an event.
        event: usize,
        /// The position of the member's answer.
        answer: usize,
        /// A file with the member's mark.
        file: File,
    },
    /// A contradiction: a file was installed before an event, and no call before the event may
    /// install it.
    Unknown {
        /// The order `Put(file) < Event(until)`.
        installed: usize,
    },
    /// A contradiction: a member is canceled although the member before it goes on with the chain,
    /// or isn't canceled although that one severs the chain or is canceled itself.
    Cut {
        /// The position of the call.
        call: usize,
        /// The position of the answer of the member before.
        before: usize,
        /// The position of the member's answer.
        answer: usize,
    },
    /// An order is supposed: until it is refuted, steps add the orders that follow from it. There
    /// is one at a time.
    Suppose(PointOrder),
    /// The last step says that a point comes before itself: the order that is supposed is refuted,
    /// which adds the opposite one. What followed from it is known no more: the numbers of those
    /// steps are numbers of the opposite order.
    Otherwise,
}
