//! The submission at which a text breaks, and its requests with their accesses and files.
use crate::lines::{AskedLine, Lines};
use bitflags::Flags;
use fx_base::{Catalogue, Closed, Errno, NoMemory};
use fx_chain::{Completion, Intent, Place, Request, SqeFlags, refusal_of};
use fx_order::{AccessPlace, Slots};
use std::alloc::Global;

/// A submission without a faulty request, and a text that doesn't begin with a report of it.
#[derive(Clone, Copy)]
pub struct Case<'a> {
    /// The allocator of each explanation.
    pub alloc: Global,
    /// The files that may be opened.
    pub catalogue: &'a Catalogue,
    /// The slots before the submission.
    pub slots: &'a Slots,
    /// The number of submissions that were accepted before it.
    pub submissions: u32,
    /// The lines of the script from that of its first request on.
    pub asked: &'a [AskedLine<'a>],
    /// Its requests.
    pub requests: &'a [Request],
    /// The lines of the text from the first one on that should be a line of its report.
    pub text: Lines<'a>,
}

/// A request, and what is known of it whatever the other requests do.
#[derive(Drop)]
pub(crate) struct Row<'a> {
    pub request: &'a Request,
    pub place: Place,
    /// The line of its completion, from 0.
    pub at: usize,
    /// The error with which it is refused whatever is at the slots, if it is.
    pub refusal: Option<Errno>,
    /// The numbers of the first access of its chain, of its own first access, and of the access
    /// after its last one. A refused request makes none.
    pub acts: (usize, usize, usize),
    /// Its completion, if its line and those of all earlier requests can be read.
    pub answer: Option<Completion>,
}

/// An access that a request makes unless it is refused or canceled, and the facts that the
/// request's line shows about it.
#[derive(Clone, Copy)]
pub(crate) struct Act {
    /// The access that the request intends.
    pub intent: Intent,
    /// The slot that the request names; `None` for an open at any slot.
    pub asked: Option<u32>,
    /// The file that it installs if it succeeds.
    pub put: Option<Closed>,
    /// The line, from 0.
    pub line: usize,
    /// The slot that the request names, or else the one that the line shows.
    pub slot: Option<u32>,
    /// True if the access found a file, or `None` if the line doesn't show it. An open that found
    /// every slot full found files.
    pub found: Option<bool>,
    /// True if the request succeeded.
    pub is_done: bool,
    /// The number of the file that it installed.
    pub file: Option<usize>,
}

/// A file that was at a slot before a submission, or that a request of it installed there.
#[derive(Clone, Copy)]
pub(crate) struct Installed {
    /// The file.
    pub file: Closed,
    /// Its slot.
    pub slot: u32,
    /// The line of the request that installed it, from 0, or `None` if it was there before.
    pub line: Option<usize>,
    /// Its `closed` line, from 0, or `None` if it has none.
    pub closed: Option<usize>,
}

impl Row<'_> {
    /// Returns the result of the request, unless it is canceled, if that doesn't depend on the
    /// slots.
    pub(crate) fn fixed_result(&self) -> Option<i32> {
        self.refusal.map(result_of).or(self.request.fixed_result())
    }

    /// Checks whether it depends on the slots whether the request severs its chain.
    pub(crate) fn may_sever(&self) -> bool {
        !self.request.flags.contains(SqeFlags::IO_HARDLINK) && self.fixed_result().is_none()
    }
}

impl Case<'_> {
    /// Returns the number of slots of the table.
    pub(crate) fn size(&self) -> usize {
        self.slots.at.len()
    }
}

/// Returns the result of a request that fails with an error.
pub(crate) fn result_of(errno: Errno) -> i32 {
    -errno.code()
}

/// Returns the first of the slots of an access, in this allocation range, and the one after the
/// last.
pub(crate) fn slots_of(slot: Option<u32>, range: (u32, u32)) -> (u32, u32) {
    match slot {
        Some(slot) => (slot, slot.saturating_add(1)),
        None => (range.0, range.0.saturating_add(range.1)),
    }
}

/// Returns the place of a member of a chain of a submission.
pub(crate) fn place_of(submission: u32, chain: u32, member: u32) -> Place {
    Place {
        submission,
        chain,
        member,
    }
}

/// Returns the place of the request after one.
pub(crate) fn place_after(place: Place, request: &Request) -> Place {
    if request.links() {
        place_of(
            place.submission,
            place.chain,
            place.member.saturating_add(1),
        )
    } else {
        place_of(place.submission, place.chain.saturating_add(1), 1)
    }
}

/// Returns the places of the accesses that the requests of a submission make at a table of `size`
/// slots, chain by chain and each chain's in order, if no request is canceled and no allocation
/// fails.
///
/// # Errors
/// `NoMemory` if an allocation fails.
pub fn access_places(
    alloc: Global,
    catalogue: &Catalogue,
    size: u32,
    requests: &[Request],
) -> Result<Vec<AccessPlace>, NoMemory> {
    let (mut places, mut at) = (Vec::new(alloc), place_of(0, 1, 1));
    for request in requests {
        let Place { chain, member, .. } = at;
        if refusal_of(catalogue, size, request).is_none() {
            for entry in request.positions(alloc)? {
                places.push(AccessPlace {
                    chain,
                    member,
                    entry,
                })?;
            }
        }
        at = place_after(at, request);
    }
    Ok(places)
}
