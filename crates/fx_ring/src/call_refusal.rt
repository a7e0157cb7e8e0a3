//! The errors of calls between submissions, apart from failed allocations. If several apply, the
//! first in the manual's order is returned. They depend on the catalogue, the number of
//! slots (0 without a table) and the number of accepted registrations.
ghost use Rattle.std.specs.Prelude.{◌≡◌, ◌+◌, ◌<◌, ◌≤◌, [], IfNone, false, length};
ghost use Rattle.std.specs.List.{list_any};
ghost use Rattle.fx_chain.specs.Answers.{is_bad_entry};
ghost use Rattle.fx_ring.specs.Registration.{counted_ring, is_bad_file, register_refusal};
ghost use Rattle.fx_ring.specs.Registration.{sparse_refusal, update_refusal};
ghost use Rattle.fx_ring.specs.Tags.{tags_for};

use crate::list::{are_bad_tags, has_bad_file};
use crate::ring::MOST_REGISTRATIONS;
use fx_base::{Catalogue, Errno, MOST_ENTRIES};
use fx_chain::has_bad_entry;
use fx_plain::MOST_SLOTS;

/// Returns the error with which a table of `n` empty slots is refused.
pub fn sparse_refusal(size: usize, n: usize) -> Option<Errno>
    ensures { result ≡ sparse_refusal (counted_ring [] size 0) n }
{
    if size > 0 {
        return Some(Errno::EBUSY);
    }
    if n == 0 {
        return Some(Errno::EINVAL);
    }
    if n > MOST_SLOTS as usize {
        return Some(Errno::EMFILE);
    }
    None
}

/// Returns the error with which a list and its optional tags are refused as a table.
pub fn register_refusal(
    catalogue: &Catalogue,
    size: usize,
    registrations: u32,
    list: &[i32],
    tags: Option<&[u64]>,
) -> Option<Errno>
    ensures value { result ≡ register_refusal (counted_ring catalogue.now size registrations)
        list.now (tags_for list.now tags.entry) }
    ensures entries { IfNone result (length catalogue.now ≤ MOST_ENTRIES) }
    ensures good { IfNone result
        (list_any (is_bad_file (length catalogue.now)) list.now ≡ false) }
    ensures counted { IfNone result (registrations < MOST_REGISTRATIONS) }
{
    if size > 0 {
        return Some(Errno::EBUSY);
    }
    if list.is_empty() || are_bad_tags(list, tags) {
        return Some(Errno::EINVAL);
    }
    if list.len() > MOST_SLOTS as usize {
        return Some(Errno::EMFILE);
    }
    if has_bad_file(catalogue.len(), list) {
        return Some(Errno::EBADF);
    }
    if registrations >= MOST_REGISTRATIONS {
        return Some(Errno::EAGAIN);
    }
    None
}

/// Returns the error with which an update of the slots from `off` on by a list and its optional
/// tags is refused.
pub fn update_refusal(
    catalogue: &Catalogue,
    size: usize,
    registrations: u32,
    off: u32,
    list: &[i32],
    tags: Option<&[u64]>,
) -> Option<Errno>
    ensures value { result ≡ update_refusal (counted_ring catalogue.now size registrations)
        off list.now (tags_for list.now tags.entry) }
    ensures inside { IfNone result (off + length list.now ≤ size) }
    ensures entries { IfNone result (length catalogue.now ≤ MOST_ENTRIES) }
    ensures good { IfNone result
        (list_any (is_bad_entry (length catalogue.now)) list.now ≡ false) }
    ensures counted { IfNone result (registrations < MOST_REGISTRATIONS) }
{
    if size == 0 {
        return Some(Errno::ENXIO);
    }
    if list.is_empty() || off as u64 + list.len() as u64 > size as u64 {
        return Some(Errno::EINVAL);
    }
    if are_bad_tags(list, tags) {
        return Some(Errno::EINVAL);
    }
    if has_bad_entry(catalogue.len(), list) {
        return Some(Errno::EBADF);
    }
    if registrations >= MOST_REGISTRATIONS {
        return Some(Errno::EAGAIN);
    }
    None
}
