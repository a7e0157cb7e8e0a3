//! Accepted submissions, and the calls between them: the word of each, and the error with which it
//! is refused.
ghost use Rattle.std.specs.Prelude.{◌≡◌, ◌<◌, ◌≤◌, IfNone, IfSome, IsTrue, None, false, length, option_map};
ghost use Rattle.check_lines.specs.Words.{fault_of, all_asked, SubmitsAll, instruction_of, MOST_SUBMISSIONS, ring_with_slots};
ghost use Rattle.fx_chain.specs.Accepted.{IsAccepted};
ghost use Rattle.fx_chain.specs.Runs.{runs_of};
ghost use Rattle.fx_table.specs.declared.limits.TheConstants.{MAX_CHAINS};
ghost use Rattle.check_lines.specs.Calls.{IsCall, accepted_following, HasEntries, call_of, memory_word};

use fx_base::{Catalogue, Errno};
use fx_chain::{Request, check};
use fx_language::Command;
use fx_order::RingSlots;
use fx_ring::{MOST_SUBMISSIONS, register_refusal, sparse_refusal, update_refusal};

/// Checks whether requests are accepted after `submissions` accepted submissions: none of them has
/// a fault, and there is a number for one more.
pub fn is_accepted(requests: &[Request], submissions: u32) -> bool
    ensures accepted { IsTrue result → IsAccepted (all_asked requests.now) }
    ensures faultless { IsTrue result → fault_of (all_asked requests.now) ≡ None }
    ensures few { IsTrue result → submissions < MOST_SUBMISSIONS }
    ensures chains { IsTrue result → length (runs_of (all_asked requests.now)) ≤ MAX_CHAINS }
    ensures refused { result ≡ false
        → accepted_following submissions (fault_of (all_asked requests.now)) ≡ submissions }
{
    check(requests).is_ok() && submissions < MOST_SUBMISSIONS
}

/// Returns the requests of a command if it is a submission that is accepted after `submissions`
/// accepted ones.
pub fn accepted_in(command: &Command, submissions: u32) -> Option<&[Request]>
    ensures requests { IfSome result (λ requests.
        instruction_of command.now ≡ SubmitsAll (all_asked requests.now)) }
    ensures accepted { IfSome result (λ requests. IsAccepted (all_asked requests.now)) }
    ensures faultless { IfSome result (λ requests. fault_of (all_asked requests.now) ≡ None) }
    ensures few { IfSome result (λ _. submissions < MOST_SUBMISSIONS) }
    ensures chains { IfSome result (λ requests.
        length (runs_of (all_asked requests.now)) ≤ MAX_CHAINS) }
    ensures none { IfNone result (IsCall submissions (instruction_of command.now)) }
{
    match command {
        Command::Submit(requests) if is_accepted(requests, submissions) => {
            Some(requests.as_slice())
        }
        _ => None,
    }
}

/// Returns the word of a call, the error with which it is refused, or `None` if only a failed
/// allocation could refuse it, and its result if it isn't refused. A submission has no word.
#[tactic(auto, using(crate::proofs::Entries::good_updated, crate::proofs::Entries::good_listed))]
pub(crate) fn head_of(
    catalogue: &Catalogue,
    ring: &RingSlots,
    command: &Command,
) -> (&'static str, Option<Errno>, usize)
    ensures word { result.0.now
        ≡ (call_of (ring_with_slots catalogue.now ring.now) (instruction_of command.now)).word }
    ensures refusal { result.1
        ≡ (call_of (ring_with_slots catalogue.now ring.now) (instruction_of command.now)).refusal }
    ensures res { result.2
        ≡ (call_of (ring_with_slots catalogue.now ring.now) (instruction_of command.now)).res }
    ensures entries { IfNone result.1 (HasEntries (instruction_of command.now)) }
{
    let size = ring.slots.at.len();
    let count = ring.registrations;
    match command {
        Command::Sparse(n) => ("sparse", sparse_refusal(size, *n as usize), 0),
        Command::Register(list, tags) => {
            let refusal = register_refusal(catalogue, size, count, list, given(tags));
            ("register", refusal, 0)
        }
        Command::Unregister => ("unregister", (size == 0).then_some(Errno::ENXIO), 0),
        Command::Range(off, len) => {
            let is_past = *off as u64 + *len as u64 > size as u64;
            ("range", is_past.then_some(Errno::EINVAL), 0)
        }
        Command::Update(off, list, tags) => {
            let refusal = update_refusal(catalogue, size, count, *off, list, given(tags));
            ("regupdate", refusal, list.len())
        }
        Command::Submit(_) => ("", None, 0),
    }
}

/// Returns the tags of a command, if it has any.
pub(crate) fn given(tags: &Option<Vec<u64>>) -> Option<&[u64]>
    ensures { option_map (λ given. given.now) result
        ≡ option_map (λ given. given.items) tags.now }
{
    tags.as_deref()
}

/// Returns the word of a call that may fail to allocate, or `None` if the call is refused, sets the
/// range or is a submission.
pub fn memory_word(
    catalogue: &Catalogue,
    ring: &RingSlots,
    command: &Command,
) -> Option<&'static str>
    ensures { option_map (λ word. word.now) result
        ≡ memory_word (ring_with_slots catalogue.now ring.now) (instruction_of command.now) }
{
    if matches!(command, Command::Range(_, _) | Command::Submit(_)) {
        return None;
    }
    let (word, refusal, _) = head_of(catalogue, ring, command);
    match refusal {
        Some(_) => None,
        None => Some(word),
    }
}
