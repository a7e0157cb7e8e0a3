//! Completions: the answers to requests.
ghost use Rattle.std.specs.Prelude.{◌≡◌, ◌<◌, ◌^◌, ◌↔◌, IfOk, IsTrue, pos, []};
ghost use Rattle.fx_base.specs.declared.mark.Mark.TheVariants.{Submitted};
ghost use Rattle.fx_chain.specs.Answers.{installed};
ghost use Rattle.fx_chain.specs.Completed.{completed, completed_of, is_error, refusal};

use fx_base::{Closed, Errno, Mark, NoMemory};
use std::alloc::Global;

/// The place of a request: its submission, its chain in the submission, and its number in the
/// chain, each from 1 (this project's own; a kernel returns the user data).
#[derive(Clone, Copy, Debug, PartialEq, Eq)]
pub struct Place {
    /// The number of the submission among those that the ring accepted, from 1.
    pub submission: u32,
    /// The number of the chain in the submission, from 1.
    pub chain: u32,
    /// The number of the request in the chain, from 1.
    pub member: u32,
}

/// The answer to a request (io_uring_enter(2), "CQE").
#[derive(Debug, PartialEq, Eq, Drop)]
pub struct Completion {
    /// The place of the request.
    pub place: Place,
    /// The result: 0 or more, or a negated error number.
    pub res: i32,
    /// The bytes that a read returned.
    pub got: Vec<u8>,
}

impl Place {
    /// Returns the mark of a file that the request at this place installs. `in_list` is the
    /// position of the file's entry in the list of an update, from 0, and 0 for an open.
    pub fn mark(self, in_list: u32) -> Mark
        ensures { result ≡ Submitted self.submission self.chain self.member in_list }
    {
        Mark::Submitted {
            submission: self.submission,
            chain: self.chain,
            member: self.member,
            entry: in_list,
        }
    }

    /// Returns the identity of the file that the request at this place installs from a catalogue
    /// entry: with the mark of [`Place::mark`], and without a tag.
    pub fn installed(self, in_list: u32, entry: u8) -> Closed
        ensures { result ≡ installed self in_list entry }
    {
        Closed {
            mark: self.mark(in_list),
            entry,
            tag: 0,
        }
    }
}

impl Completion {
    /// Creates the answer to a request that fails: the negated number of the error, and no bytes
    /// (io_uring_enter(2), "CQE ERRORS").
    pub fn refusal(alloc: Global, place: Place, errno: Errno) -> Completion
        ensures { completed_of result ≡ refusal place errno }
    {
        Completion {
            place,
            res: -errno.code(),
            got: Vec::new(alloc),
        }
    }

    /// Creates the answer to a request that succeeds with this number, below 2^31, and returns no
    /// bytes (io_uring_enter(2), "CQE").
    pub fn number(alloc: Global, place: Place, res: u32) -> Completion
        requires { res < 2 ^ 31 }
        ensures { completed_of result ≡ completed place (pos res) [] }
    {
        Completion {
            place,
            res: res as i32,
            got: Vec::new(alloc),
        }
    }

    /// Returns a copy of the completion.
    ///
    /// # Errors
    /// `NoMemory` if the allocation for its bytes fails.
    pub fn copy(&self, alloc: Global) -> Result<Completion, NoMemory>
        ensures { IfOk result (λ copy. completed_of copy ≡ completed_of self.now) }
    {
        Ok(Completion {
            place: self.place,
            res: self.res,
            got: Vec::from_slice(alloc, &self.got)?,
        })
    }

    /// Checks whether this is the answer to the request at `place`, with this result and these
    /// bytes.
    pub fn is_answer(&self, place: Place, res: i32, got: &[u8]) -> bool
        ensures { IsTrue result ↔ (completed_of self.now ≡ completed place res got.now) }
    {
        self.place == place && self.res == res && self.got.as_slice() == got
    }

    /// Checks whether this is the answer to the request at `place` that fails with this error, as
    /// [`Completion::refusal`] creates it.
    pub fn is_refusal(&self, place: Place, errno: Errno) -> bool
        ensures { IsTrue result ↔ (completed_of self.now ≡ refusal place errno) }
    {
        self.is_answer(place, -errno.code(), &[])
    }

    /// Checks whether this is the answer of a request that fails with this error, wherever the
    /// request is.
    pub fn is_error(&self, errno: Errno) -> bool
        ensures { result ≡ is_error (completed_of self.now) errno }
    {
        self.res == -errno.code() && self.got.is_empty()
    }
}
