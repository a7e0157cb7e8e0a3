//! The verdict on a log of calls in flight.
ghost use Rattle.std.specs.Prelude.{◌≡◌};
ghost use Rattle.fx_judge.specs.Arrays.{passed_log};
ghost use Rattle.fx_judge.specs.Logs.{IsLogVerdict, IsNumberOf, IsUnreadNumber, number_of_fault};

use crate::codes::{
    BAD_FILE, FAULT_ANSWERED_TWICE, FAULT_NOT_CALLED, FAULT_NOT_HELD, FAULT_NOT_ONE_CHAIN,
    FAULT_OUT_OF_TURN, FAULT_STILL_OPEN, FAULT_WRONG_NUMBER, FAULTY, LEGAL, MALFORMED, NO_MEMORY,
    NOT_LEGAL, TOO_MANY_SLOTS, UNDECIDED,
};
use crate::logs::CallLog;
use crate::steps::{YachtStep, write_steps};
use crate::unread::{LogRefusal, Unread};
use check_flight::{FlightVerdict, LogLimits, judge_events};
use fx_flight::EventFault;
use std::alloc::Global;

/// The details of a verdict on a log. A field that the number doesn't speak of is 0.
#[repr(C)]
#[derive(Drop)]
pub struct YachtJudgement {
    /// The position of the event of a verdict, from 0: the first one with which the log is known
    /// not to be legal, or the first one with a fault or a flaw. Of a refused file: its position.
    pub at: u64,
    /// Of a log that isn't legal: the number of steps of the whole reason, of which as many are
    /// written as have room, or 0 if no reason is found.
    pub steps: u64,
    /// The number of the fault, or of the flaw.
    pub fault: u32,
}

// Returns the number of a fault.
fn number_of(fault: EventFault) -> u32
    ensures { result ≡ number_of_fault fault }
{
    match fault {
        EventFault::WrongNumber => FAULT_WRONG_NUMBER,
        EventFault::NotOneChain => FAULT_NOT_ONE_CHAIN,
        EventFault::NotCalled => FAULT_NOT_CALLED,
        EventFault::OutOfTurn => FAULT_OUT_OF_TURN,
        EventFault::AnsweredTwice => FAULT_ANSWERED_TWICE,
        EventFault::NotHeld => FAULT_NOT_HELD,
        EventFault::StillOpen => FAULT_STILL_OPEN,
    }
}

// Writes the details of a verdict, and its reason. Returns its number.
fn number(verdict: FlightVerdict, steps: &mut [YachtStep], judgement: &mut YachtJudgement) -> u32
    ensures { IsNumberOf verdict result judgement.new }
{
    match verdict {
        FlightVerdict::Faulty(fault) => {
            judgement.at = fault.at as u64;
            judgement.fault = number_of(fault.fault);
            FAULTY
        }
        FlightVerdict::NotLegal { at, reason } => {
            judgement.at = at as u64;
            judgement.steps = match reason {
                Some(why) => write_steps(&why.steps, steps),
                None => 0,
            };
            NOT_LEGAL
        }
        FlightVerdict::Legal => LEGAL,
        FlightVerdict::Undecided => UNDECIDED,
    }
}

// Writes the details of a log that isn't read. Returns its number.
fn unread(why: Unread, judgement: &mut YachtJudgement) -> u32
    ensures { IsUnreadNumber why result judgement.new }
{
    match why {
        Unread::Refused(LogRefusal::TooManySlots) => TOO_MANY_SLOTS,
        Unread::Refused(LogRefusal::BadFile(at)) => {
            judgement.at = at as u64;
            BAD_FILE
        }
        Unread::Refused(LogRefusal::Malformed { at, flaw }) => {
            judgement.at = at as u64;
            judgement.fault = flaw;
            MALFORMED
        }
        Unread::NoMemory => NO_MEMORY,
    }
}

/// Judges a log of calls in flight, by searches within these limits, and writes the first steps of
/// the reason. With `whole` each update is one step, not one for each entry. It returns `LEGAL`,
/// `NOT_LEGAL`, `UNDECIDED`, `NO_MEMORY`, `FAULTY`, `MALFORMED`, `TOO_MANY_SLOTS` or `BAD_FILE`.
pub fn judge_log(
    alloc: Global,
    log: &CallLog<'_>,
    whole: bool,
    limits: LogLimits,
    steps: &mut [YachtStep],
    judgement: &mut YachtJudgement,
) -> u32
    ensures { IsLogVerdict whole (passed_log log.now) result judgement.new }
{
    *judgement = YachtJudgement {
        at: 0,
        steps: 0,
        fault: 0,
    };
    let read = match log.read(alloc) {
        Ok(read) => read,
        Err(why) => return unread(why, judgement),
    };
    let (catalogue, slots) = (&read.catalogue, &read.slots);
    let Ok(verdict) = judge_events(alloc, catalogue, slots, &read.events, whole, limits) else {
        return unread(Unread::NoMemory, judgement);
    };
    number(verdict, steps, judgement)
}
