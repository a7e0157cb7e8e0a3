//! Contradictions that need no order: what the last event of the beginning can't be.

use crate::assembly::ReasonStep;
use crate::holding::since;
use crate::reading::Reading;
use crate::shown::ShownAccess;
use check_certificate::{
    Evidence, Holding, OnlyFile, Point, PointOrder, Step, is_cut_wrongly, is_impossible, was_freed,
};
use fx_base::{Closed as File, NoMemory};
use fx_chain::{Completion, Place};
use fx_flight::LogEvent;

// Returns the contradiction of a look that finds a file at a position, if the file was closed.
fn by_found(log: &Reading<'_>, answer: usize, file: File) -> Option<Step> {
    let close = log.close_of(0, file)?;
    (close < answer).then_some(Step::FindsClosed { close, answer })
}

// Returns the contradiction of the answer of a request at a position, by the request alone.
fn by_request(log: &Reading<'_>, answer: usize, c: &Completion) -> Option<Step> {
    let call = log.call(c.place.submission)?.at;
    let request = log.request(c.place)?;
    let shown = log.shown_at(answer, 0).map(|it| it.shown);
    let is_outside = matches!(shown, Some(Evidence::Installs(slot, _)) if slot >= log.size);
    if !is_outside && !is_impossible(log.catalogue, log.size, request, c) {
        return None;
    }
    Some(Step::CantAnswer { call, answer })
}

// Returns the contradiction of the answer of a request at a position, by that of the member before.
fn by_member(log: &Reading<'_>, answer: usize, c: &Completion) -> Option<Step> {
    let call = log.call(c.place.submission)?.at;
    let place = Place {
        member: c.place.member.checked_sub(1)?,
        ..c.place
    };
    let before = log.answer_of(place)?;
    let Some(LogEvent::Done(earlier)) = log.events.get(before) else {
        return None;
    };
    let request = log.request(place)?;
    is_cut_wrongly(request, earlier, c).then_some(Step::Cut {
        call,
        before,
        answer,
    })
}

// Returns the contradiction of an answer at a position that says that a file was at the slot, if
// none can have been: by the log alone.
fn by_access(log: &Reading<'_>, answer: usize) -> Option<Step> {
    let it = log.shown_at(answer, 0)?;
    let (Evidence::Sees(slot) | Evidence::Removes(slot)) = it.shown else {
        return None;
    };
    let last = since(log, slot, it.call);
    Some(Step::Holds(Holding {
        call: it.call,
        answer,
        access: it.access,
        slot,
        since: last.map_or((0, 0, 0), |it| (it.call, it.answer, it.access)),
        found: OnlyFile::Nothing,
    }))
}

// Returns the contradiction of the close of a file after these events.
fn by_closed(log: &Reading<'_>, before: &[LogEvent], file: File) -> Option<Step> {
    let close = before.len();
    let first = log.close_of(0, file)?;
    if first < close {
        return Some(Step::ClosesTwice {
            first,
            second: close,
        });
    }
    let answer = before.iter().position(|event| match event {
        LogEvent::Found { id, file: found } => *found == Some(file) && !was_freed(before, *id),
        _ => false,
    })?;
    Some(Step::ClosesHeld { answer, close })
}

// Returns the step that joins two others.
fn then(first: usize, second: usize) -> Step {
    Step::Then { first, second }
}

// Returns a step, and its order.
fn step_of(step: Step, from: Point, to: Point, strict: bool) -> ReasonStep {
    let order = PointOrder { from, to, strict };
    ReasonStep { step, order }
}

// Appends the steps of a contradiction to those by which a file was installed before the event at
// `last`: no call installs it, or its member failed. Removes all steps if there is none.
fn push_missing(
    log: &Reading<'_>,
    last: usize,
    file: File,
    steps: &mut Vec<ReasonStep>,
) -> Result<(), NoMemory> {
    let installed = steps.len().saturating_sub(1);
    let (put, event) = (Point::Put(file), Point::Event(last));
    if !log.may_install(file) {
        steps.push(step_of(Step::Unknown { installed }, put, put, true))?;
        return Ok(());
    }
    match log.failure_of(file) {
        Some(answer) => {
            let fails = Step::Fails {
                event: last,
                answer,
                file,
            };
            steps.push(step_of(fails, event, put, true))?;
            let joined = then(installed, installed.saturating_add(1));
            steps.push(step_of(joined, put, put, true))?;
        }
        None => steps.clear(),
    }
    Ok(())
}

// Returns the steps of a contradiction: the file that is closed last was never installed.
fn closed_in_vain(log: &Reading<'_>, last: usize, file: File) -> Result<Vec<ReasonStep>, NoMemory> {
    let (put, event) = (Point::Put(file), Point::Event(last));
    let existed = step_of(Step::Existed { close: last }, put, event, true);
    let mut steps = Vec::from_slice(log.alloc, &[existed])?;
    push_missing(log, last, file, &mut steps)?;
    Ok(steps)
}

// Returns the steps of a contradiction: the file that is found last was never installed, or not at
// the slot of the look.
fn found_in_vain(log: &Reading<'_>, last: usize, file: File) -> Result<Vec<ReasonStep>, NoMemory> {
    let Some(look) = log.shown_at(last, 0) else {
        return Ok(Vec::new(log.alloc));
    };
    let mut steps = Vec::from_slice(log.alloc, &steps_before(&look, file))?;
    push_missing(log, last, file, &mut steps)?;
    if steps.is_empty()
        && let Evidence::Finds(slot, file) = look.shown
        && log.slot_of(file) != Some(slot)
    {
        steps = Vec::from_slice(log.alloc, &steps_before(&look, file))?;
        for step in steps_missing(&look, slot, file) {
            steps.push(step)?;
        }
    }
    Ok(steps)
}

// Returns the steps by which the file that a look finds was installed before its answer.
fn steps_before(look: &ShownAccess, file: File) -> [ReasonStep; 3] {
    let (call, answer, access) = (look.call, look.answer, look.access);
    let (put, found, event) = (
        Point::Put(file),
        Point::Access(answer, 0),
        Point::Event(answer),
    );
    let ends = Step::Ends {
        call,
        answer,
        access,
    };
    [
        step_of(Step::Follows { call, answer }, put, found, true),
        step_of(ends, found, event, true),
        step_of(then(0, 1), put, event, true),
    ]
}

// Returns the steps of a contradiction after them: no call installs the file at the look's slot.
fn steps_missing(look: &ShownAccess, slot: u32, file: File) -> [ReasonStep; 4] {
    let (call, answer) = (look.call, look.answer);
    let (put, gone, found) = (
        Point::Put(file),
        Point::Gone(file, slot),
        Point::Access(answer, 0),
    );
    [
        step_of(Step::Misses { slot, installed: 2 }, gone, put, false),
        step_of(Step::Finds { call, answer }, found, gone, true),
        step_of(then(0, 4), put, gone, true),
        step_of(then(5, 3), put, put, true),
    ]
}

// Returns the contradiction of the last event with those before it, if it is one step.
fn one_step(log: &Reading<'_>, event: &LogEvent, before: &[LogEvent]) -> Option<Step> {
    let last = before.len();
    match event {
        LogEvent::Found {
            file: Some(file),
            ..
        } => by_found(log, last, *file),
        LogEvent::Closed(file) => by_closed(log, before, *file),
        LogEvent::Done(c) => by_request(log, last, c)
            .or(by_member(log, last, c))
            .or(by_access(log, last)),
        _ => None,
    }
}

/// Returns the steps of a contradiction of the last event with those before it, none if no such
/// contradiction is found.
pub(crate) fn direct(log: &Reading<'_>) -> Result<Vec<ReasonStep>, NoMemory> {
    let Some((event, before)) = log.events.split_last() else {
        return Ok(Vec::new(log.alloc));
    };
    let last = before.len();
    if let Some(step) = one_step(log, event, before) {
        let end = match step {
            Step::Holds(_) => Point::Access(last, 0),
            _ => Point::Event(last),
        };
        let steps = [step_of(step, end, end, true)];
        return Ok(Vec::from_slice(log.alloc, &steps)?);
    }
    match event {
        LogEvent::Found {
            file: Some(file),
            ..
        } => found_in_vain(log, last, *file),
        LogEvent::Closed(file) => closed_in_vain(log, last, *file),
        LogEvent::Settled => log.unclosed(),
        _ => Ok(Vec::new(log.alloc)),
    }
}
