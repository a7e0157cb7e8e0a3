//! Certificates of logs that are not legal: the checker takes right ones, by each rule, and no
//! wrong one. A contract says what a certificate shows that the checker takes; none says that it
//! takes one.
use crate::setting::{Host, close, one_file, open};
use check_certificate::{Holding, OnlyFile, Step, is_refuted};
use fx_base::{Closed as File, NoMemory};
use fx_chain::{Completion, Place, Request};
use fx_flight::LogEvent;
use fx_order::Slots;

/// Returns the file that a call of one open installs.
pub fn opened_by(id: u32) -> File {
    place_of(id).installed(0, 0)
}

// Returns the place of the request of a call.
fn place_of(id: u32) -> Place {
    Place {
        submission: id,
        chain: 1,
        member: 1,
    }
}

/// Appends a call of one request, and its answer.
pub fn answered<H: Host>(
    rt: &H,
    log: &mut Vec<LogEvent>,
    id: u32,
    request: Request,
    res: i32,
) -> Result<(), NoMemory> {
    let mut chain = Vec::new(rt.alloc());
    chain.push(request)?;
    log.push(LogEvent::Call { id, chain })?;
    let (place, got) = (place_of(id), Vec::new(rt.alloc()));
    Ok(log.push(LogEvent::Done(Completion { place, res, got }))?)
}

/// Appends a call of one request, and its answer 0.
pub fn call<H: Host>(
    rt: &H,
    log: &mut Vec<LogEvent>,
    id: u32,
    request: Request,
) -> Result<(), NoMemory> {
    answered(rt, log, id, request, 0)
}

// Appends a look of slot 0 that finds the file of call 1.
fn look(log: &mut Vec<LogEvent>, id: u32) -> Result<(), NoMemory> {
    log.push(LogEvent::Look { id, slot: 0 })?;
    let file = Some(opened_by(1));
    Ok(log.push(LogEvent::Found { id, file })?)
}

/// Creates a log: call 1 opens a file at slot 0, call 2 closes the slot or opens another file
/// there, and then look 3 finds the first file.
pub fn stale_log<H: Host>(rt: &H, closes: bool) -> Result<Vec<LogEvent>, NoMemory> {
    let mut log = Vec::new(rt.alloc());
    call(rt, &mut log, 1, open(rt))?;
    let second = if closes { close(0) } else { open(rt) };
    call(rt, &mut log, 2, second)?;
    look(&mut log, 3)?;
    Ok(log)
}

/// Checks whether the steps refute the first `count` events of a log of two slots.
pub fn refutes<H: Host>(
    rt: &H,
    log: &[LogEvent],
    count: usize,
    steps: &[Step],
) -> Result<bool, NoMemory> {
    let slots = Slots {
        range: (0, 1),
        at: vec![in rt.alloc(); None; 2]?,
    };
    is_refuted(rt.alloc(), &one_file(rt), &slots, log, count, steps)
}

/// Returns the step of two events.
pub fn events(earlier: usize, later: usize) -> Step {
    Step::Events { earlier, later }
}

/// Returns the step of a call and its access.
pub fn begins(call: usize, answer: usize, access: usize) -> Step {
    Step::Begins {
        call,
        answer,
        access,
    }
}

/// Returns the step of the first access and its answer.
pub fn ends(call: usize, answer: usize) -> Step {
    Step::Ends {
        call,
        answer,
        access: 0,
    }
}

/// Returns the step of an open that is answered, and its first access.
pub fn installs(call: usize, answer: usize) -> Step {
    Step::Installs {
        call,
        answer,
        access: 0,
    }
}

/// Returns the step of a close that removes a file, whose installation before it has a number.
pub fn empties(call: usize, answer: usize, installed: usize) -> Step {
    Step::Empties {
        call,
        answer,
        access: 0,
        installed,
    }
}

/// Returns the step that joins two orders.
pub fn then(first: usize, second: usize) -> Step {
    Step::Then { first, second }
}

// Returns steps that refute the log with the close: the file left the slot before the close's
// access, so before the look was called; but the look found it there.
fn right_steps() -> [Step; 14] {
    [
        installs(0, 1),
        events(1, 2),
        begins(2, 3, 0),
        then(0, 1),
        then(3, 2),
        empties(2, 3, 4),
        ends(2, 3),
        events(3, 4),
        begins(4, 5, 0),
        Step::Finds { call: 4, answer: 5 },
        then(5, 6),
        then(10, 7),
        then(11, 8),
        then(12, 9),
    ]
}

// Checks whether the steps refute the log if one of them is another one, or left out.
fn refutes_with<H: Host>(rt: &H, at: usize, other: Option<Step>) -> Result<bool, NoMemory> {
    let mut steps = Vec::new(rt.alloc());
    for (i, step) in right_steps().iter().enumerate() {
        if i != at {
            steps.push(*step)?;
        } else if let Some(step) = other {
            steps.push(step)?;
        }
    }
    refutes(rt, &stale_log(rt, true)?, 6, &steps)
}

// Checks whether the steps of a log with a second open refute it: the other file displaces the
// first one, or was installed before it.
fn refutes_open<H: Host>(rt: &H, displaces: bool) -> Result<bool, NoMemory> {
    let file = opened_by(2);
    let last = if displaces {
        Step::Displaces {
            installed: 4,
            placed: 5,
        }
    } else {
        Step::Outlives {
            there: 12,
            placed: 5,
        }
    };
    let end = if displaces { then(13, 12) } else { then(13, 4) };
    let steps = [
        installs(0, 1),
        events(1, 2),
        Step::Calls { call: 2, file },
        then(0, 1),
        then(3, 2),
        Step::Places {
            call: 2,
            answer: 3,
            access: 0,
        },
        installs(2, 3),
        events(3, 4),
        begins(4, 5, 0),
        Step::Finds { call: 4, answer: 5 },
        then(6, 7),
        then(10, 8),
        then(11, 9),
        last,
        end,
    ];
    refutes(rt, &stale_log(rt, false)?, 6, &steps)
}

// Checks whether contradictions refute a log whose file was closed before the look, and again.
fn refutes_closes<H: Host>(rt: &H, step: Step, count: usize) -> Result<bool, NoMemory> {
    let mut log = Vec::new(rt.alloc());
    call(rt, &mut log, 1, open(rt))?;
    call(rt, &mut log, 2, close(0))?;
    log.push(LogEvent::Closed(opened_by(1)))?;
    look(&mut log, 3)?;
    log.push(LogEvent::Closed(opened_by(1)))?;
    refutes(rt, &log, count, &[step])
}

// Checks whether a log is refuted by the answer of its only call, a close of slot 0.
fn cant_answer<H: Host>(rt: &H, res: i32) -> Result<bool, NoMemory> {
    let mut log = Vec::new(rt.alloc());
    answered(rt, &mut log, 1, close(0), res)?;
    refutes(rt, &log, 2, &[Step::CantAnswer { call: 0, answer: 1 }])
}

// Checks whether a log is refuted by its last close of slot 0, which answered 0. Calls open the
// slot and close it before, unless there is only that close. `since` names an earlier access.
fn finds_none<H: Host>(
    rt: &H,
    is_alone: bool,
    since: (usize, usize, usize),
    found: OnlyFile,
) -> Result<bool, NoMemory> {
    let mut log = Vec::new(rt.alloc());
    if !is_alone {
        call(rt, &mut log, 1, open(rt))?;
        call(rt, &mut log, 2, close(0))?;
    }
    let at = log.len();
    call(rt, &mut log, if is_alone { 1 } else { 3 }, close(0))?;
    let holding = Holding {
        call: at,
        answer: at + 1,
        access: 0,
        slot: 0,
        since,
        found,
    };
    refutes(rt, &log, at + 2, &[Step::Holds(holding)])
}

#[test]
fn close_without_a_file_refutes(rt: HostRuntime) {
    let none = OnlyFile::Nothing;
    assert!(rt; finds_none(&rt, true, (0, 0, 0), none) == Ok(true));
    assert!(rt; finds_none(&rt, false, (2, 3, 0), none) == Ok(true));
    // without the close between them the file may be there, and it is when it was installed
    for since in [(0, 0, 0), (0, 1, 0), (4, 5, 0), (2, 1, 0)] {
        assert!(rt; finds_none(&rt, false, since, none) == Ok(false));
    }
    for found in [
        OnlyFile::PutBefore(opened_by(1)),
        OnlyFile::GoneAfter(opened_by(1)),
    ] {
        assert!(rt; finds_none(&rt, false, (2, 3, 0), found) == Ok(false));
    }
}

#[test]
fn impossible_answers_refute(rt: HostRuntime) {
    for res in [1, -2, -23, -125] {
        assert!(rt; cant_answer(&rt, res) == Ok(true));
    }
    for res in [0, -9, -12] {
        assert!(rt; cant_answer(&rt, res) == Ok(false));
    }
}

#[test]
fn right_certificate_refutes(rt: HostRuntime) {
    let log = stale_log(&rt, true).expect(&rt, "memory");
    assert!(rt; refutes(&rt, &log, 6, &right_steps()) == Ok(true));
    assert!(rt; refutes(&rt, &log, 5, &right_steps()) == Ok(false));
    assert!(rt; refutes(&rt, &log, 7, &right_steps()) == Ok(false));
}

#[test]
fn each_step_is_needed(rt: HostRuntime) {
    for at in 0..14 {
        assert!(rt; refutes_with(&rt, at, None) == Ok(false));
    }
}

#[test]
fn wrong_steps_are_refused(rt: HostRuntime) {
    for (at, step) in [
        (0, installs(2, 3)),
        (1, events(2, 1)),
        (1, events(1, 6)),
        (2, begins(0, 3, 0)),
        (2, begins(2, 3, 1)),
        (5, empties(2, 3, 0)),
        (5, empties(4, 5, 4)),
        (8, begins(4, 3, 0)),
        (9, Step::Finds { call: 2, answer: 3 }),
        (12, then(12, 8)),
    ] {
        assert!(rt; refutes_with(&rt, at, Some(step)) == Ok(false));
    }
}

#[test]
fn other_rules_refute(rt: HostRuntime) {
    for displaces in [true, false] {
        assert!(rt; refutes_open(&rt, displaces) == Ok(true));
    }
    for (count, step) in [
        (
            7,
            Step::FindsClosed {
                close: 4,
                answer: 6,
            },
        ),
        (
            8,
            Step::ClosesTwice {
                first: 4,
                second: 7,
            },
        ),
        (
            8,
            Step::ClosesHeld {
                answer: 6,
                close: 7,
            },
        ),
    ] {
        assert!(rt; refutes_closes(&rt, step, count) == Ok(true));
        assert!(rt; refutes_closes(&rt, step, count - 1) == Ok(false));
    }
}
