//! The steps of a reason as C reads them: of fixed size, with positions of events.
ghost use Rattle.std.specs.Prelude.{◌≡◌, length};

use crate::codes::{
    POINT_ACCESS, POINT_EVENT, POINT_GONE, POINT_PUT, RULE_BEGINS, RULE_CALLS, RULE_CANT_ANSWER,
    RULE_CLOSES, RULE_CLOSES_HELD, RULE_CLOSES_TWICE, RULE_CUT, RULE_DIFFERS, RULE_DISPLACES,
    RULE_EMPTIES, RULE_ENDS, RULE_EVENTS, RULE_EXISTED, RULE_FAILS, RULE_FINDS, RULE_FINDS_CLOSED,
    RULE_FOLLOWS, RULE_HOLDS, RULE_INSTALLS, RULE_LANDS, RULE_MISSES, RULE_OTHERWISE,
    RULE_OUTLIVES, RULE_PLACES, RULE_PRECEDES, RULE_SETTLES, RULE_STAYS, RULE_SUPPOSE,
    RULE_TAKEN_BY, RULE_TAKES, RULE_THEN, RULE_UNKNOWN,
};
use check_certificate::{Holding, Point, Step};
use check_reason::ReasonStep;
use fx_base::{Closed, Mark};

/// A point in time of a flight. A field that its kind doesn't use is 0.
#[repr(C)]
#[derive(Drop)]
pub struct YachtPoint {
    /// One of `POINT_EVENT` to `POINT_GONE`.
    pub kind: u32,
    /// The slot that the file left.
    pub slot: u32,
    /// The position of the event, or of the answer of the member that makes the access.
    pub at: u64,
    /// The number of the access among those of its member, from 0.
    pub access: u64,
    /// The call that installed the file.
    pub by_call: u32,
    /// The member that installed it, from 1.
    pub by_member: u32,
    /// The position in the list of that member, from 0; 0 for an open.
    pub by_entry: u32,
    /// The number of that file in the catalogue, from 0.
    pub file: u8,
}

/// A step of a reason: a rule, what it is applied to, and the order of two points that follows. A
/// field that its rule doesn't use is 0.
#[repr(C)]
#[derive(Drop)]
pub struct YachtStep {
    /// One of `RULE_EVENTS` to `RULE_OTHERWISE`.
    pub rule: u32,
    /// 1 if `from` comes before `to`; 0 if it comes before or at the same time.
    pub is_strict: u32,
    /// The position of the first event of the rule: mostly a call.
    pub first: u64,
    /// The position of the second event of the rule: mostly the answer of the call.
    pub second: u64,
    /// The number of the access among those of its member, from 0.
    pub access: u64,
    /// The number of the earlier step that the rule follows from, from 0.
    pub premise: u64,
    /// The number of the other earlier step, from 0.
    pub other: u64,
    /// The slot at which a file is found, from 0.
    pub slot: u64,
    /// The earlier point.
    pub from: YachtPoint,
    /// The later point.
    pub to: YachtPoint,
}

// Returns a point of an event.
fn point_at(kind: u32, at: usize, access: usize) -> YachtPoint {
    YachtPoint {
        kind,
        slot: 0,
        at: at as u64,
        access: access as u64,
        by_call: 0,
        by_member: 0,
        by_entry: 0,
        file: 0,
    }
}

// Returns a point of a file, which a call installed.
fn point_of(kind: u32, file: Closed, slot: u32) -> YachtPoint {
    let (by_call, by_member, by_entry) = match file.mark {
        Mark::Submitted {
            submission,
            chain: _,
            member,
            entry,
        } => (submission, member, entry),
        Mark::Registered { k: _, i: _ } => (0, 0, 0),
    };
    YachtPoint {
        kind,
        slot,
        at: 0,
        access: 0,
        by_call,
        by_member,
        by_entry,
        file: file.entry,
    }
}

// Returns a point.
fn passed_point(point: Point) -> YachtPoint {
    match point {
        Point::Event(at) => point_at(POINT_EVENT, at, 0),
        Point::Access(at, access) => point_at(POINT_ACCESS, at, access),
        Point::Put(file) => point_of(POINT_PUT, file, 0),
        Point::Gone(file, slot) => point_of(POINT_GONE, file, slot),
    }
}

// A rule, and the events, the access and the steps that it is applied to.
#[derive(Clone, Copy)]
struct Applied {
    rule: u32,
    events: (usize, usize),
    access: usize,
    premises: (usize, usize),
    slot: u32,
}

// Returns a rule that is applied to two events.
fn of_events(rule: u32, first: usize, second: usize) -> Applied {
    Applied {
        rule,
        events: (first, second),
        access: 0,
        premises: (0, 0),
        slot: 0,
    }
}

// Returns a rule that is applied to an access of a call.
fn of_access(rule: u32, call: usize, answer: usize, access: usize, premise: usize) -> Applied {
    Applied {
        rule,
        events: (call, answer),
        access,
        premises: (premise, 0),
        slot: 0,
    }
}

// Returns a rule that is applied to two earlier steps, and perhaps to an event.
fn of_steps(rule: u32, event: usize, premise: usize, other: usize) -> Applied {
    Applied {
        rule,
        events: (event, 0),
        access: 0,
        premises: (premise, other),
        slot: 0,
    }
}

// Returns the rule of an access that finds a file.
fn of_holding(holding: &Holding) -> Applied {
    Applied {
        rule: RULE_HOLDS,
        events: (holding.call, holding.answer),
        access: holding.access,
        premises: (0, 0),
        slot: holding.slot,
    }
}

// Returns what a step applies.
fn applied_by(step: &Step) -> Applied {
    match *step {
        Step::Events { earlier, later } => of_events(RULE_EVENTS, earlier, later),
        Step::Begins {
            call,
            answer,
            access,
        } => of_access(RULE_BEGINS, call, answer, access, 0),
        Step::Ends {
            call,
            answer,
            access,
        } => of_access(RULE_ENDS, call, answer, access, 0),
        Step::Calls { call, file: _ } => of_events(RULE_CALLS, call, 0),
        Step::Installs {
            call,
            answer,
            access,
        } => of_access(RULE_INSTALLS, call, answer, access, 0),
        Step::Places {
            call,
            answer,
            access,
        } => of_access(RULE_PLACES, call, answer, access, 0),
        Step::Follows { call, answer } => of_events(RULE_FOLLOWS, call, answer),
        Step::Finds { call, answer } => of_events(RULE_FINDS, call, answer),
        Step::Closes { close, slot: _ } => of_events(RULE_CLOSES, close, 0),
        Step::Settles {
            settled,
            installed,
            placed,
        } => of_steps(RULE_SETTLES, settled, installed, placed),
        Step::Empties {
            call,
            answer,
            access,
            installed,
        } => of_access(RULE_EMPTIES, call, answer, access, installed),
        Step::Precedes {
            call,
            answer,
            access,
            there,
        } => of_access(RULE_PRECEDES, call, answer, access, there),
        Step::Displaces { installed, placed } => of_steps(RULE_DISPLACES, 0, installed, placed),
        Step::Outlives { there, placed } => of_steps(RULE_OUTLIVES, 0, there, placed),
        Step::Then { first, second } => of_steps(RULE_THEN, 0, first, second),
        Step::FindsClosed { close, answer } => of_events(RULE_FINDS_CLOSED, close, answer),
        Step::ClosesTwice { first, second } => of_events(RULE_CLOSES_TWICE, first, second),
        Step::ClosesHeld { answer, close } => of_events(RULE_CLOSES_HELD, answer, close),
        Step::Holds(holding) => of_holding(&holding),
        Step::Differs { call, other, order } => Applied {
            rule: RULE_DIFFERS,
            events: (call, other),
            access: 0,
            premises: (order, 0),
            slot: 0,
        },
        Step::CantAnswer { call, answer } => of_events(RULE_CANT_ANSWER, call, answer),
        Step::Fails {
            event,
            answer,
            file: _,
        } => of_events(RULE_FAILS, event, answer),
        Step::Unknown { installed } => of_steps(RULE_UNKNOWN, 0, installed, 0),
        Step::Cut {
            call: _,
            before,
            answer,
        } => of_events(RULE_CUT, before, answer),
        Step::Lands { slot: _, installed } => of_steps(RULE_LANDS, 0, installed, 0),
        Step::Misses { slot: _, installed } => of_steps(RULE_MISSES, 0, installed, 0),
        Step::Existed { close } => of_events(RULE_EXISTED, close, 0),
        Step::Stays { until, there } => of_steps(RULE_STAYS, until, there, 0),
        Step::Takes {
            taker: _,
            there,
            gone,
        } => of_steps(RULE_TAKES, 0, there, gone),
        Step::TakenBy {
            taker: _,
            there,
            gone,
        } => of_steps(RULE_TAKEN_BY, 0, there, gone),
        Step::Suppose(_) => of_steps(RULE_SUPPOSE, 0, 0, 0),
        Step::Otherwise => of_steps(RULE_OTHERWISE, 0, 0, 0),
    }
}

// Returns a step of a reason.
fn passed_step(step: &ReasonStep) -> YachtStep {
    let it = applied_by(&step.step);
    YachtStep {
        rule: it.rule,
        is_strict: if step.order.strict { 1 } else { 0 },
        first: it.events.0 as u64,
        second: it.events.1 as u64,
        access: it.access as u64,
        premise: it.premises.0 as u64,
        other: it.premises.1 as u64,
        slot: it.slot as u64,
        from: passed_point(step.order.from),
        to: passed_point(step.order.to),
    }
}

/// Writes the first steps of a reason, as many as have room. Returns the number of all of them.
pub fn write_steps(reason: &[ReasonStep], into: &mut [YachtStep]) -> u64
    ensures { result ≡ length reason.now }
{
    for i in 0..reason.len().min(into.len()) {
        into[i] = passed_step(&reason[i]);
    }
    reason.len() as u64
}
