//! The effect of each access on a slot, given its answer if that is known. Nothing is proved of it.

use crate::judged::JudgedLog;
use fx_base::{Closed, NoMemory};
use fx_chain::{Completion, Intent, Place, Request};

/// An access at a slot.
#[derive(Clone, Copy)]
pub(crate) enum Act<'a> {
    /// It installs the file.
    Puts(Closed),
    /// It installs the file at the slot, which is empty.
    Fills(Closed),
    /// It installs the file here if the slot is empty, or elsewhere.
    MayFill(Closed),
    /// It empties the slot.
    Clears,
    /// It takes a file.
    Takes,
    /// It finds this.
    Finds(Option<Closed>),
    /// It finds some file.
    FindsSome,
    /// It reads the bytes of its answer.
    Reads(&'a Request, &'a Completion),
}

/// Returns the place of a member of a call, by its number from 0.
pub(crate) fn place_of(id: u32, n: usize) -> Place {
    let member = u32::try_from(n).unwrap_or(0).saturating_add(1);
    Place {
        submission: id,
        chain: 1,
        member,
    }
}

/// Returns the slot of an access that a request intends, or `None` if it may be any.
pub(crate) fn slot_of(intent: Intent) -> Option<u32> {
    match intent {
        Intent::Look(slot) | Intent::Clear(slot) | Intent::Take(slot) => Some(slot),
        Intent::Put(slot, _) => Some(slot),
        Intent::Allocate(_) => None,
    }
}

/// Returns the access at a slot that a request intends.
pub(crate) fn act_of<'a>(
    slot: u32,
    intent: Intent,
    request: &'a Request,
    answer: Option<&'a Completion>,
) -> Option<Act<'a>> {
    if slot_of(intent).is_some_and(|other| other != slot) {
        return None;
    }
    match (intent, answer) {
        (Intent::Put(_, file), _) => Some(Act::Puts(file)),
        (Intent::Clear(_), _) | (Intent::Take(_), None) => Some(Act::Clears),
        (Intent::Take(_), Some(c)) if c.res >= 0 => Some(Act::Takes),
        (Intent::Look(_), Some(c)) if c.res >= 0 => Some(Act::Reads(request, c)),
        (Intent::Take(_) | Intent::Look(_), Some(_)) => Some(Act::Finds(None)),
        (Intent::Look(_), None) => None,
        (Intent::Allocate(file), None) => Some(Act::MayFill(file)),
        (Intent::Allocate(file), Some(c)) => match u32::try_from(c.res) {
            Ok(other) => (other == slot).then_some(Act::Fills(file)),
            Err(_) => Some(Act::FindsSome),
        },
    }
}

impl Act<'_> {
    /// Checks whether an access that changes nothing finds its answer if this is at the slot.
    pub(crate) fn is_seen(
        &self,
        log: &JudgedLog<'_>,
        there: Option<Closed>,
    ) -> Result<bool, NoMemory> {
        match (*self, there) {
            (Act::Finds(found), _) => Ok(found == there),
            (Act::FindsSome, _) => Ok(there.is_some()),
            (Act::Reads(request, c), Some(file)) => {
                let setting = &log.setting;
                let bytes = request.bytes_of(setting.alloc, setting.catalogue, file.entry)?;
                Ok(bytes.as_slice() == c.got.as_slice())
            }
            _ => Ok(false),
        }
    }

    /// Returns what an access that may be made leaves at the slot. `elsewhere` is for one that may
    /// install its file at another slot.
    pub(crate) fn left(&self, there: Option<Closed>, elsewhere: bool) -> Option<Option<Closed>> {
        match (*self, there) {
            (Act::MayFill(_), _) if elsewhere => Some(there),
            _ if elsewhere => None,
            (Act::Puts(file), _) => Some(Some(file)),
            (Act::Fills(file) | Act::MayFill(file), None) => Some(Some(file)),
            (Act::Clears, _) | (Act::Takes, Some(_)) => Some(None),
            _ => None,
        }
    }

    /// Returns the file that it installs.
    pub(crate) fn file(&self) -> Option<Closed> {
        match *self {
            Act::Puts(file) | Act::Fills(file) | Act::MayFill(file) => Some(file),
            _ => None,
        }
    }
}
