//! A log of calls in flight, judged. A read is open while another call closes the slot: it may find
//! the file. A read that is called after the answer of the close can't find it.
ghost use Rattle.fx_base.specs.Catalogue.{IsCatalogue};

use bitflags::Flags;
use check_flight::{FlightVerdict, LogLimits, judge_events};
use check_search::Limits;
use fx_base::{AddFault, Catalogue, NoMemory};
use fx_chain::{Completion, Op, Place, Request, SqeFlags, Target};
use fx_flight::LogEvent;
use fx_order::Slots;
use std::alloc::Global;

const NAME: &str = "page.html";

// Appends a call of one request.
fn call(alloc: Global, log: &mut Vec<LogEvent>, id: u32, request: Request) -> Result<(), NoMemory> {
    let mut chain = Vec::new(alloc);
    chain.push(request)?;
    Ok(log.push(LogEvent::Call { id, chain })?)
}

// Returns the place of the request of a call.
fn place_of(id: u32) -> Place {
    let (submission, chain, member) = (id, 1, 1);
    Place {
        submission,
        chain,
        member,
    }
}

// Appends the answer of a call.
fn done(log: &mut Vec<LogEvent>, id: u32, res: i32, got: Vec<u8>) -> Result<(), NoMemory> {
    let place = place_of(id);
    Ok(log.push(LogEvent::Done(Completion { place, res, got }))?)
}

// Appends an open at slot 0, and its answer.
fn open(alloc: Global, log: &mut Vec<LogEvent>, id: u32) -> Result<(), NoMemory> {
    let (name, target) = (String::from_str(alloc, NAME)?, Target::Slot(0));
    let (op, flags) = (Op::Open { name, target }, SqeFlags::empty());
    call(alloc, log, id, Request { op, flags })?;
    done(log, id, 0, Vec::new(alloc))
}

// Appends a read of slot 0, without its answer.
fn read(alloc: Global, log: &mut Vec<LogEvent>, id: u32) -> Result<(), NoMemory> {
    let (slot, off, len) = (0, 0, 5);
    let (op, flags) = (Op::Read { slot, off, len }, SqeFlags::FIXED_FILE);
    call(alloc, log, id, Request { op, flags })
}

// Appends a close of slot 0, and its answer.
fn close(alloc: Global, log: &mut Vec<LogEvent>, id: u32) -> Result<(), NoMemory> {
    let (op, flags) = (Op::Close { slot: 0 }, SqeFlags::empty());
    call(alloc, log, id, Request { op, flags })?;
    done(log, id, 0, Vec::new(alloc))
}

// Appends a log: the file is opened, read and closed. The read is called first, or last.
fn play(alloc: Global, log: &mut Vec<LogEvent>, reads_first: bool) -> Result<(), NoMemory> {
    open(alloc, log, 1)?;
    let id = if reads_first { 2 } else { 3 };
    if reads_first {
        read(alloc, log, id)?;
        close(alloc, log, 3)?;
    } else {
        close(alloc, log, 2)?;
        read(alloc, log, id)?;
    }
    done(log, id, 5, b"hello".to_vec(alloc)?)?;
    log.push(LogEvent::Closed(place_of(1).installed(0, 0)))?;
    Ok(log.push(LogEvent::Settled)?)
}

// Returns the verdict on a log, at a table of one empty slot.
fn verdict_on(
    alloc: Global,
    catalogue: &Catalogue,
    reads_first: bool,
) -> Result<FlightVerdict, NoMemory>
    requires { IsCatalogue catalogue.now }
{
    let mut log = Vec::new(alloc);
    play(alloc, &mut log, reads_first)?;
    let (range, at) = ((0, 1), vec![in alloc; None; 1]?);
    let (states, bytes, moves) = (1000, 1 << 20, 1_000_000);
    let search = Limits { states, bytes };
    let limits = LogLimits { search, moves };
    judge_events(alloc, catalogue, &Slots { range, at }, &log, false, limits)
}

// Prints a verdict. A line that can't be written changes nothing.
fn print_verdict<R: Print>(rt: &R, verdict: FlightVerdict) {
    let _ = match verdict {
        FlightVerdict::Faulty(fault) => println!(rt; "event {} isn't one of a log", fault.at),
        FlightVerdict::NotLegal { at, .. } => println!(rt; "not legal at event {at}"),
        FlightVerdict::Legal => println!(rt; "legal"),
        FlightVerdict::Undecided => println!(rt; "undecided"),
    };
}

/// Judges a log whose read is called first, and one whose read is called last. Prints the verdicts.
///
/// # Errors
/// `AddFault::NoMemory` if an allocation fails.
pub fn judge_logs<R: Print>(rt: &R, alloc: Global) -> Result<(), AddFault> {
    let mut catalogue = Catalogue::new(alloc);
    catalogue.add(String::from_str(alloc, NAME)?, b"hello".to_vec(alloc)?)?;
    for reads_first in [true, false] {
        match verdict_on(alloc, &catalogue, reads_first) {
            Ok(verdict) => print_verdict(rt, verdict),
            Err(NoMemory) => return Err(AddFault::NoMemory),
        }
    }
    Ok(())
}
