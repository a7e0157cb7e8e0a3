//! Open files, which a program can't lose, and their identities.
ghost use Rattle.std.specs.Prelude.{◌≡◌};

use crate::mark::Mark;
use std::marker::Model;

/// The identity of an open or closed file: the installation that it comes from, the catalogue entry
/// that it was opened from, and its resource tag.
#[derive(Clone, Copy, Debug, PartialEq, Eq)]
pub struct Closed {
    /// The installation that the file comes from.
    pub mark: Mark,
    /// The catalogue entry, from 0.
    pub entry: u8,
    /// The tag, 0 for none (io_uring_register(2), "IORING_REGISTER_FILES2").
    pub tag: u64,
}

/// An open file. It must be consumed: the compiler rejects a program that drops one without
/// [`crate::CloseList::close`] or [`OpenFile::discard`]. Contracts see it as its identity (a kernel
/// has a `struct file` here).
pub struct OpenFile {
    mark: Mark,
    entry: u8,
    tag: u64,
}

impl Model for OpenFile {
    ghost use Rattle.fx_base.specs.Identity.{Identity};

    ghost Value = { Identity };

    ghost view = { λ file. record { mark = file.mark; entry = file.entry; tag = file.tag } };
}

impl OpenFile {
    /// Opens a file of the program's own, without a catalogue: with this mark, this tag, 0 for no
    /// tag, and any number as its entry. [`crate::Catalogue::open`] opens an entry of a catalogue.
    pub fn new(mark: Mark, entry: u8, tag: u64) -> OpenFile
        ensures mark { result.mark ≡ mark }
        ensures entry { result.entry ≡ entry }
        ensures tag { result.tag ≡ tag }
    {
        OpenFile { mark, entry, tag }
    }

    /// Returns the mark of the installation that the file comes from.
    pub fn mark(&self) -> Mark
        ensures { result ≡ self.now.mark }
    {
        self.mark
    }

    /// Returns the catalogue entry that the file was opened from, from 0.
    pub fn entry(&self) -> u8
        ensures { result ≡ self.now.entry }
    {
        self.entry
    }

    /// Returns the resource tag that the file was installed with, 0 for none (io_uring_register(2),
    /// "IORING_REGISTER_FILES2").
    pub fn tag(&self) -> u64
        ensures { result ≡ self.now.tag }
    {
        self.tag
    }

    /// Returns the file's identity: its mark, its entry and its tag.
    pub fn identity(&self) -> Closed
        ensures { result ≡ self.now }
    {
        Closed {
            mark: self.mark,
            entry: self.entry,
            tag: self.tag,
        }
    }

    /// Consumes the file without listing it: for an open that was refused, or for a file of an
    /// abandoned table.
    pub fn discard(self) {
        let OpenFile {
            mark: _,
            entry: _,
            tag: _,
        } = self;
    }

    // Consumes the file and returns its identity, for a list that names it.
    pub(crate) fn close(self) -> Closed
        ensures { result ≡ self }
    {
        let identity = self.identity();
        self.discard();
        identity
    }
}
