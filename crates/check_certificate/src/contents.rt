//! The rule of the bytes that a read answers: a file of other bytes isn't at the slot of the read.
ghost use Rattle.check_certificate.specs.Words.{IfOk, IfSome, map, completed_of, bytes_read, asked_of, operation_of};
ghost use Rattle.std.specs.Prelude.{◌≡◌};
ghost use Rattle.check_certificate.specs.Absent.{IsAbsent};
ghost use Rattle.check_certificate.specs.Contents as rule;
ghost use Rattle.check_certificate.specs.Said as said;

use crate::beginning::LogBeginning;
use crate::certificate::Holding;
use crate::cut::asked_by;
use crate::evidence::Evidence;
use fx_base::{Catalogue, Closed as File, NoMemory};
use fx_chain::{Completion, Request};
use std::alloc::Global;

/// Returns the bytes of each entry of a catalogue.
///
/// # Errors
/// `NoMemory` if an allocation fails.
pub fn contents_of(alloc: Global, catalogue: &Catalogue) -> Result<Vec<Vec<u8>>, NoMemory>
    ensures { IfOk result (λ contents. map (λ own. own.items) contents.items
        ≡ map (λ file. file.bytes) catalogue.now) }
{
    let mut contents = Vec::new(alloc);
    for entry in 0..catalogue.len() {
        let mut bytes = Vec::new(alloc);
        let size = catalogue.size_of(entry as u8);
        bytes.reserve(size as usize)?;
        catalogue.read_into(entry as u8, 0, size, &mut bytes);
        contents.push(bytes)?;
    }
    Ok(contents)
}

// Checks whether evidence says that an access finds some file at a slot.
fn is_seen(evidence: Evidence, slot: u32) -> bool
    ensures { result ≡ rule.is_seen evidence slot }
{
    match evidence {
        Evidence::Sees(own) => own == slot,
        _ => false,
    }
}

impl LogBeginning<'_> {
    // Returns the part of a file's bytes that a request reads.
    fn part_of(&self, request: &Request, file: File) -> &[u8]
        ensures { result.now ≡ bytes_read self.now.catalogue.now (operation_of request.now.op)
            file.entry }
    {
        match self.contents.get(file.entry as usize) {
            Some(bytes) => request.part_read(bytes.as_slice()),
            None => &[],
        }
    }

    // Checks whether a request read bytes that a file doesn't have.
    fn reads_others(&self, request: &Request, c: &Completion, file: File) -> bool
        ensures { result ≡ rule.reads_others self.now.catalogue.now (asked_of request.now)
            (completed_of c.now) file }
    {
        request.is_read() && c.res >= 0 && self.part_of(request, file) != c.got.as_slice()
    }

    /// Returns a file if it isn't the one that the access finds: the access is that of a read of
    /// other bytes.
    #[tactic(auto, unfolding(crate::specs::Contents::other_read))]
    pub(crate) fn other_read(&self, h: &Holding, file: File) -> Option<File>
        ensures sound { IfSome result (λ other. IsAbsent self.now h.now file) }
        ensures exact { result ≡ rule.other_read (said.given_of self.now) h.now file }
    {
        let begins = self.event_at(h.call)?;
        let c = self.done_at(h.answer)?;
        let request = asked_by(begins, c)?;
        let evidence = self.made(h.call, h.answer, h.access)?;
        if !is_seen(evidence, h.slot) || !self.reads_others(request, c, file) {
            return None;
        }
        Some(file)
    }
}
