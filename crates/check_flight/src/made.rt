//! Checks whether an answer, or the file that a look found, is that of the accesses that a call has
//! made so far.
ghost use Rattle.check_flight.specs.Words.{Contains, IfOk, IsTrue, Some, take, all_completed, completed_of, all_asked, IsLookDone};
ghost use Rattle.std.specs.Prelude.{◌≡◌};
ghost use Rattle.check_flight.specs.Player.{AreWholeMembers, IsLookPlan, IsMemberMade, IsMembersEnd, IsPlanned};

use crate::judged::JudgedLog;
use crate::plan::{CallKind, CallPlan, are_done};
use fx_base::{Closed, Errno, NoMemory};
use fx_chain::{Completion, Request, count_of};
use fx_order::Access;

/// Checks whether a file is in a list.
pub(crate) fn has_file(files: &[Closed], file: Closed) -> bool
    ensures { IsTrue result → Contains files.now file }
{
    files.contains(&file)
}

// Returns the number of accesses that a member of a call makes that has this answer. A hint.
fn accesses_of(log: &JudgedLog<'_>, request: &Request, answer: &Completion) -> usize {
    if answer.res == -Errno::ECANCELED.code() {
        return 0;
    }
    count_of(log.setting.catalogue, log.setting.size, request)
}

// Returns the number of accesses that the first members of a call make that have these answers. A
// hint.
fn accesses_made(log: &JudgedLog<'_>, requests: &[Request], answers: &[Completion]) -> usize {
    let mut count: usize = 0;
    for i in 0..requests.len().min(answers.len()) {
        count = count.saturating_add(accesses_of(log, &requests[i], &answers[i]));
    }
    count
}

// Returns the number of first members of a call that make this number of accesses, or 0 if no
// number of members does. A hint.
fn members_made(
    log: &JudgedLog<'_>,
    requests: &[Request],
    answers: &[Completion],
    made: usize,
) -> usize {
    let mut count: usize = 0;
    for i in 0..requests.len().min(answers.len()) {
        count = count.saturating_add(accesses_of(log, &requests[i], &answers[i]));
        if count == made {
            return i + 1;
        }
    }
    0
}

// Checks whether this number of accesses of a chain are all accesses of its first members.
fn are_members_done(
    log: &JudgedLog<'_>,
    plan: &CallPlan,
    requests: &[Request],
    id: u32,
    made: usize,
) -> Result<bool, NoMemory>
    ensures { IfOk result (λ yes. IsTrue yes
        → AreWholeMembers log.now id (all_asked requests.now) plan.now made) }
{
    let m = members_made(log, requests, &plan.answers, made);
    if m == 0 || m > plan.answers.len() || m > requests.len() || made > plan.accesses.len() {
        return Ok(false);
    }
    let (requests, answers) = (&requests[..m], &plan.answers[..m]);
    are_done(log, id, requests, &plan.accesses[..made], answers)
}

// Checks whether a call that made this number of its accesses is a look, or these are all accesses
// of its first members.
fn is_members_end(
    log: &JudgedLog<'_>,
    plan: &CallPlan,
    kind: CallKind<'_>,
    id: u32,
    made: usize,
) -> Result<bool, NoMemory>
    ensures { IfOk result (λ yes. IsTrue yes
        → IsMembersEnd log.now id kind.entry plan.now made) }
{
    match kind {
        CallKind::Chain(requests) => are_members_done(log, plan, requests, id, made),
        CallKind::Look(_) => Ok(true),
    }
}

/// Returns the call that is amid a whole update once a call made this number of its accesses.
pub(crate) fn amid_after(
    log: &JudgedLog<'_>,
    plan: &CallPlan,
    kind: CallKind<'_>,
    id: u32,
    made: usize,
) -> Result<Option<u32>, NoMemory>
    ensures { IfOk result (λ amid. IsTrue log.now.whole → (amid ≡ Some id → ⊥)
        → IsMembersEnd log.now id kind.entry plan.now made) }
{
    if !log.whole {
        return Ok(None);
    }
    let ends = is_members_end(log, plan, kind, id, made)?;
    if ends {
        return Ok(None);
    }
    Ok(Some(id))
}

// Checks whether both answers are the same.
fn is_same_answer(one: &Completion, other: &Completion) -> bool
    ensures { IsTrue result → completed_of one.now ≡ completed_of other.now }
{
    one.is_answer(other.place, other.res, &other.got)
}

/// Checks whether an answer is that of a member of a call, and the member has made its accesses.
pub(crate) fn is_member_made(
    log: &JudgedLog<'_>,
    plan: &CallPlan,
    requests: &[Request],
    made: usize,
    c: &Completion,
) -> Result<bool, NoMemory>
    ensures { IfOk result (λ yes. IsTrue yes → IsMemberMade log.now plan.now
        (all_asked requests.now) made c.now.place.submission (completed_of c.now)) }
{
    let m = c.place.member as usize;
    if m == 0 || m > plan.answers.len() || m > requests.len() {
        return Ok(false);
    }
    if !is_same_answer(&plan.answers[m - 1], c) {
        return Ok(false);
    }
    let (requests, answers) = (&requests[..m], &plan.answers[..m]);
    let own = accesses_made(log, requests, answers);
    if own > made || own > plan.accesses.len() {
        return Ok(false);
    }
    are_done(
        log,
        c.place.submission,
        requests,
        &plan.accesses[..own],
        answers,
    )
}

// Checks whether a look of a slot may make these accesses: one of the slot, or none.
fn is_look_plan(slot: u32, accesses: &[Access]) -> bool
    ensures { IsTrue result → IsLookPlan slot accesses.now }
{
    match accesses {
        [] => true,
        [Access::Looks(at, _)] => *at == slot,
        _ => false,
    }
}

/// Checks whether a plan fits a call.
pub(crate) fn is_planned(
    log: &JudgedLog<'_>,
    id: u32,
    kind: CallKind<'_>,
    plan: &CallPlan,
) -> Result<bool, NoMemory>
    ensures { IfOk result (λ yes. IsTrue yes → IsPlanned log.now id kind.entry
        plan.now.accesses.items (all_completed plan.now.answers.items)) }
{
    match kind {
        CallKind::Chain(requests) => are_done(log, id, requests, &plan.accesses, &plan.answers),
        CallKind::Look(slot) => Ok(is_look_plan(slot, &plan.accesses)),
    }
}

/// Checks whether a look that made the first accesses found a file, or none.
pub(crate) fn is_look_made(
    size: u32,
    slot: u32,
    accesses: &[Access],
    made: usize,
    found: Option<Closed>,
) -> bool
    ensures { IsTrue result → IsLookDone size slot (take made accesses.now) found }
{
    if slot >= size {
        return made == 0 && found.is_none();
    }
    match accesses {
        [Access::Looks(at, file)] => *at == slot && *file == found && made == 1,
        _ => false,
    }
}
