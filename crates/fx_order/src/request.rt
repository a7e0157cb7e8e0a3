//! Checking a request's accesses and completion: the accesses are those that it intends, and its
//! completion is the answer by what they found.
ghost use Rattle.fx_order.specs.Words.{IfNone, IfOk, IfSome, IsTrue, List, None, Some, ℕ, drop, length, take, AllZip, ENOENT, IsWithinLimits};
ghost use Rattle.fx_order.specs.Words.{completed_of, IsOpened, answer_at_table, intents_of, positions_of, asked_of, operation_of, refusal_of};
ghost use Rattle.fx_order.specs.Words.{Access as Made};
ghost use Rattle.std.specs.Prelude.{◌≡◌, ◌<◌, ◌+◌, ◌^◌, ◌↔◌};
ghost use Rattle.fx_order.specs.Access.{IsOf, entry_installed, last_finding};
ghost use Rattle.fx_order.specs.Requests.{AreIntended, IsOwnEntry, IsRefused, IsRequestDone, LacksMemory};

use crate::access::Access;
use fx_base::{Catalogue, Errno, NoMemory};
use fx_chain::{
    Completion, Finding, Intent, Place, Request, answer_of, count_of, intent_by, refusal_of,
};
use std::alloc::Global;

/// The values that stay the same while a submission's requests are checked.
#[derive(Drop)]
pub struct OrderSetting<'a> {
    /// The allocator.
    pub alloc: Global,
    /// The files that may be opened.
    pub catalogue: &'a Catalogue,
    /// The number of slots of the table.
    pub size: u32,
}

/// The accesses and the completion that a request is said to have made.
#[derive(Drop)]
pub(crate) struct Performed<'a> {
    pub(crate) place: Place,
    pub(crate) own: &'a [Access],
    pub(crate) c: &'a Completion,
}

impl Performed<'_> {
    // Checks whether the request made no access and failed with this error.
    fn is_refusal(&self, errno: Errno) -> bool
        ensures { IsTrue result
            ↔ IsRefused self.now.place errno self.now.own.now (completed_of self.now.c.now) }
    {
        self.own.is_empty() && self.c.is_refusal(self.place, errno)
    }
}

// Checks whether an access is what was intended, whatever it found.
fn is_of(intent: Intent, access: &Access) -> bool
    ensures { IsTrue result ↔ IsOf intent access.now }
{
    match (intent, access) {
        (Intent::Look(slot), Access::Looks(at, _)) => *at == slot,
        (Intent::Put(slot, file), Access::Puts(at, own, _)) => *at == slot && *own == file,
        (Intent::Clear(slot), Access::Clears(at, _)) => *at == slot,
        (Intent::Take(slot), Access::Takes(at, _)) => *at == slot,
        (Intent::Allocate(file), Access::Allocates(_, own)) => *own == file,
        (Intent::Allocate(_), Access::FindsFull) => true,
        _ => false,
    }
}

// Checks whether accesses are those that a request intends at its place, from the access numbered
// `made` on. `opened` is the place, and the catalogue entry that the request opens.
#[tactic(auto, using(crate::proofs::Intents::drop_got, crate::proofs::Intents::drop_past))]
fn are_intended(
    setting: &OrderSetting<'_>,
    request: &Request,
    opened: (Place, u8),
    made: usize,
    accesses: &[Access],
) -> bool
    requires accepted { refusal_of setting.now.catalogue.now setting.now.size
        (operation_of request.now.op) ≡ None }
    requires made { made + length accesses.now < 2 ^ 64 }
    ensures { IsTrue result ↔ AllZip IsOf
        (drop made (intents_of opened.0 opened.1 (operation_of request.now.op))) accesses.now }
{
    let (place, entry) = opened;
    let intent = intent_by(setting.catalogue, setting.size, place, entry, request, made);
    let [access, others @ ..] = accesses else {
        return intent.is_none();
    };
    let Some(intent) = intent else {
        return false;
    };
    is_of(intent, access) && are_intended(setting, request, opened, made + 1, others)
}

// Returns the catalogue entry of the file that the first access installs, or `None` if it installs
// none.
fn entry_installed(accesses: &[Access]) -> Option<u8>
    ensures { result ≡ entry_installed accesses.now }
{
    match accesses {
        [Access::Puts(_, file, _), ..] => Some(file.entry),
        [Access::Allocates(_, file), ..] => Some(file.entry),
        _ => None,
    }
}

// Returns a catalogue entry that the request opens: if there are several, the one that the first
// access installs.
fn entry_opened(catalogue: &Catalogue, request: &Request, accesses: &[Access]) -> Option<u8>
    ensures some { IfSome result (λ entry.
        IsOpened catalogue.now (operation_of request.now.op) entry) }
    ensures own { IfSome result (λ entry.
        IsOwnEntry catalogue.now (operation_of request.now.op) accesses.now entry) }
    ensures none { IfNone result ((size : ℕ)
        → refusal_of catalogue.now size (operation_of request.now.op) ≡ Some ENOENT) }
{
    match entry_installed(accesses) {
        Some(entry) if request.is_opened(catalogue, entry) => Some(entry),
        _ => request.opened(catalogue),
    }
}

// Checks whether the accesses are those that the request intends.
#[tactic(auto, using(crate::proofs::Intents::chosen))]
fn is_intended(setting: &OrderSetting<'_>, request: &Request, answer: &Performed<'_>) -> bool
    requires accepted { refusal_of setting.now.catalogue.now setting.now.size
        (operation_of request.now.op) ≡ None }
    ensures { IsTrue result ↔ AreIntended setting.now.catalogue.now answer.now.place
        (operation_of request.now.op) answer.now.own.now }
{
    match entry_opened(setting.catalogue, request, answer.own) {
        Some(entry) => are_intended(setting, request, (answer.place, entry), 0, answer.own),
        None => false,
    }
}

// Returns what the last access found, or `None` if there is none.
fn last_finding(accesses: &[Access]) -> Option<Finding>
    ensures { result ≡ last_finding accesses.now }
{
    match accesses {
        [] => None,
        [access] => Some(access.found()),
        [_, others @ ..] => last_finding(others),
    }
}

// Checks whether the completion is the answer by what the accesses found, which the request
// intends.
#[tactic(auto, using(crate::proofs::Intents::free_answer))]
fn is_answered(
    setting: &OrderSetting<'_>,
    request: &Request,
    answer: &Performed<'_>,
) -> Result<bool, NoMemory>
    requires limits { IsWithinLimits (asked_of request.now) }
    requires accepted { refusal_of setting.now.catalogue.now setting.now.size
        (operation_of request.now.op) ≡ None }
    requires intended { AreIntended setting.now.catalogue.now answer.now.place
        (operation_of request.now.op) answer.now.own.now }
    ensures { IfOk result (λ yes. IsTrue yes ↔ (completed_of answer.now.c.now
        ≡ answer_at_table setting.now.catalogue.now answer.now.place
        (operation_of request.now.op) (last_finding answer.now.own.now))) }
{
    let found = last_finding(answer.own);
    if let Some(Finding::Free(slot)) = found
        && i64::from(answer.c.res) != i64::from(slot)
    {
        return Ok(false);
    }
    let (alloc, catalogue, size) = (setting.alloc, setting.catalogue, setting.size);
    let due = answer_of(alloc, catalogue, size, answer.place, request, found)?;
    Ok(answer.c.is_answer(due.place, due.res, &due.got))
}

// Checks whether the request asks for bytes, makes no access and fails with ENOMEM.
fn lacks_memory(request: &Request, answer: &Performed<'_>) -> bool
    ensures { IsTrue result ↔ LacksMemory answer.now.place (operation_of request.now.op)
        answer.now.own.now (completed_of answer.now.c.now) }
{
    request.bytes_asked() > 0 && answer.is_refusal(Errno::ENOMEM)
}

/// Checks whether a request made these accesses and has this completion.
#[tactic(auto, using(crate::proofs::Intents::lacks, crate::proofs::Intents::not_intended, crate::proofs::Intents::as_answered))]
pub(crate) fn is_request_done(
    setting: &OrderSetting<'_>,
    request: &Request,
    answer: &Performed<'_>,
) -> Result<bool, NoMemory>
    requires { IsWithinLimits (asked_of request.now) }
    ensures { IfOk result (λ yes. IsTrue yes ↔ IsRequestDone setting.now.catalogue.now
        setting.now.size answer.now.place (operation_of request.now.op) answer.now.own.now
        (completed_of answer.now.c.now)) }
{
    if let Some(errno) = refusal_of(setting.catalogue, setting.size, request) {
        return Ok(answer.is_refusal(errno));
    }
    if lacks_memory(request, answer) {
        return Ok(true);
    }
    if !is_intended(setting, request, answer) {
        return Ok(false);
    }
    is_answered(setting, request, answer)
}

/// Returns the number of accesses that a request made, if it has this completion.
#[tactic(auto, using(crate::proofs::RequestCases::counted))]
pub(crate) fn accesses_made(setting: &OrderSetting<'_>, request: &Request, c: &Completion) -> usize
    ensures { (place : Place) (own : List Made) → IsRequestDone setting.now.catalogue.now
        setting.now.size place (operation_of request.now.op) own (completed_of c.now)
        → length own ≡ result }
{
    if c.res == -Errno::ENOMEM.code() {
        return 0;
    }
    count_of(setting.catalogue, setting.size, request)
}

/// Returns the position in the list of an update, from 0, for each access that a request made, if
/// it has this completion, or `None` for the access of another request.
///
/// # Errors
/// `NoMemory` if an allocation fails.
pub fn positions_made(
    setting: &OrderSetting<'_>,
    request: &Request,
    c: &Completion,
) -> Result<Vec<Option<usize>>, NoMemory>
    ensures { IfOk result (λ positions. (place : Place) (own : List Made)
        → IsRequestDone setting.now.catalogue.now setting.now.size place
        (operation_of request.now.op) own (completed_of c.now)
        → positions.items ≡ take (length own) (positions_of (operation_of request.now.op))) }
{
    let mut positions = request.positions(setting.alloc)?;
    positions.truncate(accesses_made(setting, request, c));
    Ok(positions)
}
