//! Certificates about files that leave their slots: which access took each, where each was, and
//! that no access took it.
use crate::certificates::{
    answered, begins, call, ends, events, opened_by, refutes, stale_log, then,
};
use crate::setting::{Host, close, open};
use check_certificate::{Point, Step};
use fx_base::{Closed as File, NoMemory};
use fx_flight::LogEvent;

// Appends a look of a slot, and what it finds.
fn look(log: &mut Vec<LogEvent>, id: u32, slot: u32, file: Option<File>) -> Result<(), NoMemory> {
    log.push(LogEvent::Look { id, slot })?;
    Ok(log.push(LogEvent::Found { id, file })?)
}

// Returns the step of the file that the open of call 1 installs at slot 0.
fn places() -> Step {
    Step::Places {
        call: 0,
        answer: 1,
        access: 0,
    }
}

// Checks whether a log is refuted in which call 1 opens a file at slot 0, perhaps call 2 closes the
// slot with some answer, and the file is closed: since no access took it.
fn stays<H: Host>(rt: &H, close_res: Option<i32>) -> Result<bool, NoMemory> {
    let mut log = Vec::new(rt.alloc());
    call(rt, &mut log, 1, open(rt))?;
    if let Some(res) = close_res {
        answered(rt, &mut log, 2, close(0), res)?;
    }
    let at = log.len();
    let file = opened_by(1);
    log.push(LogEvent::Closed(file))?;
    let steps = [
        Step::Calls { call: 0, file },
        places(),
        then(0, 1),
        Step::Stays {
            until: at,
            there: 2,
        },
        Step::Closes { close: at, slot: 0 },
        then(3, 4),
    ];
    refutes(rt, &log, at + 1, &steps)
}

// Checks whether the log with the close is refuted if the file is closed after the look: the close
// of the slot is the only access that can have taken it, and the look found it later.
fn taken<H: Host>(rt: &H, taker: Point, is_after: bool) -> Result<bool, NoMemory> {
    let mut log = stale_log(rt, true)?;
    let file = opened_by(1);
    log.push(LogEvent::Closed(file))?;
    let (there, gone) = (2, 3);
    let step = if is_after {
        Step::TakenBy { taker, there, gone }
    } else {
        Step::Takes { taker, there, gone }
    };
    let steps = [
        Step::Calls { call: 0, file },
        places(),
        then(0, 1),
        Step::Closes { close: 6, slot: 0 },
        step,
        ends(2, 3),
        then(4, 5),
        events(3, 4),
        then(6, 7),
        begins(4, 5, 0),
        then(8, 9),
        Step::Finds { call: 4, answer: 5 },
        then(10, 11),
    ];
    refutes(rt, &log, 7, &steps)
}

// Checks whether a log is refuted in which call 1 opens a file at slot 0, call 2 opens another one
// there, the first file is closed, and then look 3 finds no file and look 4 the second one. Only
// the second open can have taken the first file.
fn takes<H: Host>(rt: &H, taker: Point, there: usize, gone: usize) -> Result<bool, NoMemory> {
    let mut log = Vec::new(rt.alloc());
    call(rt, &mut log, 1, open(rt))?;
    let mut chain = Vec::new(rt.alloc());
    chain.push(open(rt))?;
    log.push(LogEvent::Call { id: 2, chain })?;
    let file = opened_by(1);
    log.push(LogEvent::Closed(file))?;
    look(&mut log, 3, 0, None)?;
    look(&mut log, 4, 0, Some(opened_by(2)))?;
    let steps = [
        Step::Calls { call: 0, file },
        places(),
        then(0, 1),
        Step::Closes { close: 3, slot: 0 },
        Step::Takes { taker, there, gone },
        then(4, 3),
        events(3, 4),
        then(5, 6),
        begins(4, 5, 0),
        then(7, 8),
        ends(4, 5),
        events(5, 6),
        then(10, 11),
        begins(6, 7, 0),
        then(12, 13),
        Step::Finds { call: 6, answer: 7 },
        then(14, 15),
        Step::Precedes {
            call: 4,
            answer: 5,
            access: 0,
            there: 16,
        },
        then(9, 17),
    ];
    refutes(rt, &log, 8, &steps)
}

// Checks whether a log is refuted in which call 1 opens a file at slot 0, and the file is closed:
// the close at a position shows that it was installed, at the slot, and no access took it.
fn lands<H: Host>(rt: &H, close: usize, slot: u32) -> Result<bool, NoMemory> {
    let mut log = Vec::new(rt.alloc());
    call(rt, &mut log, 1, open(rt))?;
    let file = opened_by(1);
    log.push(LogEvent::Closed(file))?;
    let steps = [
        Step::Existed { close },
        Step::Lands { slot, installed: 0 },
        Step::Calls { call: 0, file },
        then(2, 1),
        Step::Stays { until: 2, there: 3 },
        Step::Closes { close: 2, slot },
        then(4, 5),
    ];
    refutes(rt, &log, 3, &steps)
}

// Checks whether a log is refuted in which call 1 opens a file at slot 0, and a look of a slot
// finds it: it was never at the slot that the step names.
fn misses<H: Host>(rt: &H, looked: u32, slot: u32) -> Result<bool, NoMemory> {
    let mut log = Vec::new(rt.alloc());
    call(rt, &mut log, 1, open(rt))?;
    look(&mut log, 2, looked, Some(opened_by(1)))?;
    let steps = [
        Step::Follows { call: 2, answer: 3 },
        ends(2, 3),
        then(0, 1),
        Step::Misses { slot, installed: 2 },
        Step::Finds { call: 2, answer: 3 },
        then(0, 4),
        then(5, 3),
    ];
    refutes(rt, &log, 4, &steps)
}

#[test]
fn file_that_nothing_took_refutes(rt: HostRuntime) {
    assert!(rt; stays(&rt, None) == Ok(true));
    assert!(rt; stays(&rt, Some(-9)) == Ok(true));
    assert!(rt; stays(&rt, Some(0)) == Ok(false));
}

#[test]
fn file_that_one_close_can_have_taken_refutes(rt: HostRuntime) {
    assert!(rt; taken(&rt, Point::Access(3, 0), true) == Ok(true));
    assert!(rt; taken(&rt, Point::Access(3, 0), false) == Ok(false));
    for taker in [
        Point::Access(5, 0),
        Point::Put(opened_by(1)),
        Point::Event(3),
    ] {
        assert!(rt; taken(&rt, taker, true) == Ok(false));
    }
}

#[test]
fn file_that_one_open_can_have_taken_refutes(rt: HostRuntime) {
    let second = Point::Put(opened_by(2));
    assert!(rt; takes(&rt, second, 2, 3) == Ok(true));
    for (taker, there, gone) in [
        (Point::Put(opened_by(1)), 2, 3),
        (Point::Access(5, 0), 2, 3),
        (second, 3, 2),
        (second, 1, 3),
        (second, 2, 2),
    ] {
        assert!(rt; takes(&rt, taker, there, gone) == Ok(false));
    }
}

#[test]
fn file_at_the_only_slot_of_its_request_refutes(rt: HostRuntime) {
    assert!(rt; lands(&rt, 2, 0) == Ok(true));
    for (close, slot) in [(2, 1), (1, 0), (3, 0)] {
        assert!(rt; lands(&rt, close, slot) == Ok(false));
    }
}

#[test]
fn file_that_was_never_at_a_slot_refutes(rt: HostRuntime) {
    assert!(rt; misses(&rt, 1, 1) == Ok(true));
    for (looked, slot) in [(0, 0), (1, 0), (0, 1)] {
        assert!(rt; misses(&rt, looked, slot) == Ok(false));
    }
}
