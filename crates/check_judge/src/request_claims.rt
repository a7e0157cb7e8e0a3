//! The claims of one request, from its completion: one for each access that it intends.
ghost use Rattle.std.specs.Prelude.{◌≡◌, ◌<◌, ◌≤◌, ◌+◌, ◌↔◌, IfOk, IfSome, IsTrue, None, Some, slice_index_or, true, ℕ};
ghost use Rattle.check_judge.specs.Words.{ENOMEM, Closed as FileAt, IsWithinLimits, completed_of, refusal, IsOpened, bytes_asked, asked_of};
ghost use Rattle.check_judge.specs.Words.{operation_of, IsRequestDone, Access as OneAccess, Claim as OneClaim};
ghost use Rattle.fx_chain.specs.declared.intent.Finding.TheVariants.{At as FoundAt};
ghost use Rattle.check_judge.specs.Claims.{Appends, Concludes, Fits, IsAnsweredBy, IsDecided, IsMade, answer};

use crate::answered::{AnsweredRequest, ClaimSetting};
use crate::judgement::{Reason, Stop};
use check_search::{Claim, Condition, Leaves, resident_for};
use fx_base::{Catalogue, Closed, Errno, NoMemory};
use fx_chain::{Completion, Finding, Intent, Place, Request, answer_of, intent_by, refusal_of};

// Checks whether the completion is the answer of a request whose last access found this file, or
// none, at its slot.
fn is_answer(it: &AnsweredRequest<'_>, file: Option<Closed>) -> Result<bool, NoMemory>
    ensures { IfOk result (λ yes. IsTrue yes
        ↔ (completed_of it.now.c.now ≡ answer it.now (Some (FoundAt file)))) }
{
    let (catalogue, size, found) = (it.setting.catalogue, it.setting.size, Finding::At(file));
    let due = answer_of(
        it.setting.alloc,
        catalogue,
        size,
        it.place,
        it.request,
        Some(found),
    )?;
    Ok(it.c.is_answer(due.place, due.res, &due.got))
}

// Checks for each catalogue entry whether the completion has the bytes of a file of it.
#[tactic(auto, using(crate::proofs::RequestClaims::got_by_entry))]
fn fits_of(it: &AnsweredRequest<'_>) -> Result<[bool; 256], NoMemory>
    ensures { IfOk result (λ fits. (file : FileAt)
        → completed_of it.now.c.now ≡ answer it.now (Some (FoundAt (Some file)))
        → slice_index_or fits file.entry true ≡ true) }
{
    let mut fits = [true; 256];
    let mut bytes = Vec::new(it.setting.alloc);
    for entry in 0..it.setting.catalogue.len() {
        it.request
            .read_into(it.setting.catalogue, entry as u8, &mut bytes)?;
        if bytes.as_slice() != it.c.got.as_slice() {
            fits[entry as usize] = false;
        }
    }
    Ok(fits)
}

// Checks whether a slot is one of the table and of its allocation range.
fn is_in_range(setting: &ClaimSetting<'_>, slot: u32) -> bool
    ensures { IsTrue result ↔ ((slot < setting.now.size) × (setting.now.range.0 ≤ slot)
        × (slot < setting.now.range.0 + setting.now.range.1)) }
{
    let (first, len) = setting.range;
    slot < setting.size && first <= slot && (slot as u64) < first as u64 + len as u64
}

// Returns a claim of an access, if the completion is the answer by this file, or none, at its slot.
fn claim_by(
    it: &AnsweredRequest<'_>,
    intent: Intent,
    file: Option<Closed>,
    claim: Claim,
) -> Result<Claim, Stop>
    requires { (access : OneAccess) → IsMade it.now intent access
        → Fits it.now.setting.closes.now claim access
        × (completed_of it.now.c.now ≡ answer it.now (Some (FoundAt file))) }
    ensures { Concludes OneAccess OneClaim (IsMade it.now intent) (Fits it.now.setting.closes.now)
        result }
{
    if !is_answer(it, file)? {
        return Err(Stop::Refuted(Reason::Member(it.place)));
    }
    Ok(claim)
}

// Returns the claim of an access by its intent and the completion.
fn claim_of(it: &AnsweredRequest<'_>, intent: Intent) -> Result<Claim, Stop>
    requires { IsDecided it.now.place (answer it.now) intent }
    ensures { Concludes OneAccess OneClaim (IsMade it.now intent) (Fits it.now.setting.closes.now)
        result }
{
    let (place, c) = (it.place, it.c);
    match intent {
        Intent::Put(slot, file) => {
            let leaves = Leaves::File(resident_for(it.setting.closes, file));
            let claim = Claim::At(slot, Condition::Anything, leaves);
            claim_by(it, intent, None, claim)
        }
        Intent::Clear(slot) => {
            let claim = Claim::At(slot, Condition::Anything, Leaves::Empty);
            claim_by(it, intent, None, claim)
        }
        Intent::Look(slot) => {
            if c.res < 0 {
                let claim = Claim::At(slot, Condition::Nothing, Leaves::Same);
                return claim_by(it, intent, None, claim);
            }
            if c.place != place || c.res as usize != c.got.len() {
                return Err(Stop::Refuted(Reason::Member(place)));
            }
            let fits = fits_of(it)?;
            Ok(Claim::At(slot, Condition::Bytes(fits), Leaves::Same))
        }
        Intent::Take(slot) => {
            if c.res < 0 {
                let claim = Claim::At(slot, Condition::NothingToTake, Leaves::Same);
                return claim_by(it, intent, None, claim);
            }
            let file = Some(place.installed(0, 0));
            let claim = Claim::At(slot, Condition::Something, Leaves::Empty);
            claim_by(it, intent, file, claim)
        }
        Intent::Allocate(file) => {
            if c.res < 0 {
                return claim_by(it, intent, None, Claim::Full);
            }
            let slot = c.res as u32;
            if !c.is_answer(place, c.res, &[]) || !is_in_range(&it.setting, slot) {
                return Err(Stop::Refuted(Reason::Member(place)));
            }
            let resident = resident_for(it.setting.closes, file);
            Ok(Claim::At(slot, Condition::Nothing, Leaves::File(resident)))
        }
    }
}

// Appends the claims of the accesses that a request intends.
fn push_intents(claims: &mut Vec<Claim>, it: &AnsweredRequest<'_>) -> Result<(), Stop>
    ensures { Appends it.now.setting (IsAnsweredBy it.now) claims.old.items claims.new.items result }
{
    let (catalogue, size) = (it.setting.catalogue, it.setting.size);
    let accesses = it.request.accesses();
    if accesses == 0 && !is_answer(it, None)? {
        return Err(Stop::Refuted(Reason::Member(it.place)));
    }
    for made in 0..accesses {
        let Some(intent) = intent_by(catalogue, size, it.place, it.entry, it.request, made) else {
            return Err(Stop::Unknown);
        };
        claims.push(claim_of(it, intent)?)?;
    }
    Ok(())
}

// Returns the catalogue entry that the request opens, 0 unless it is an open, or `None` unless one
// entry alone has the name.
fn only_opened(catalogue: &Catalogue, request: &Request) -> Option<u8>
    ensures { IfSome result (λ entry. (other : ℕ)
        → IsOpened catalogue.now (operation_of request.now.op) other → other ≡ entry) }
{
    let entry = request.opened(catalogue)?;
    for other in 0..catalogue.len() {
        if other != entry as u32 && request.is_opened(catalogue, other as u8) {
            return None;
        }
    }
    Some(entry)
}

// Checks whether the request asks for bytes and fails with ENOMEM.
fn lacks_memory(place: Place, request: &Request, c: &Completion) -> bool
    ensures { IsTrue result ↔ ((0 < bytes_asked (operation_of request.now.op))
        × (completed_of c.now ≡ refusal place ENOMEM)) }
{
    request.bytes_asked() > 0 && c.is_refusal(place, Errno::ENOMEM)
}

/// Appends the claims of a request.
pub(crate) fn push_request(
    claims: &mut Vec<Claim>,
    setting: &ClaimSetting<'_>,
    place: Place,
    request: &Request,
    c: &Completion,
) -> Result<(), Stop>
    requires { IsWithinLimits (asked_of request.now) }
    ensures { Appends setting.now (λ own. IsRequestDone setting.now.catalogue.now setting.now.size
        place (operation_of request.now.op) own (completed_of c.now)) claims.old.items
        claims.new.items result }
{
    if let Some(errno) = refusal_of(setting.catalogue, setting.size, request) {
        if !c.is_refusal(place, errno) {
            return Err(Stop::Refuted(Reason::Member(place)));
        }
        return Ok(());
    }
    if lacks_memory(place, request, c) {
        return Ok(());
    }
    let Some(entry) = only_opened(setting.catalogue, request) else {
        return Err(Stop::Unknown);
    };
    let setting = *setting;
    let it = AnsweredRequest {
        setting,
        place,
        entry,
        request,
        c,
    };
    push_intents(claims, &it)
}
