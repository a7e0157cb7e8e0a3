//! The catalogue: the files that a script can open, found by name and read by place.
ghost use Rattle.std.specs.Prelude.{◌≡◌, ◌+◌, ◌<◌, ◌≤◌, ℕ, [], ◌∷◌, ◌++◌, length, OnOk};
ghost use Rattle.std.specs.Prelude.{OnErr, IfSome, IfNone, IsOkUnless, Some, None, option_map};
ghost use Rattle.std.specs.Prelude.{slice_get, string_bytes, IsTrue, ◌↔◌, vec_len, vec_capacity};
ghost use Rattle.std.specs.Prelude.{is_some};
ghost use Rattle.std.specs.Prelude.{take, drop};
ghost use Rattle.fx_base.specs.Name.{is_name};
ghost use Rattle.fx_base.specs.declared.name.TheConstants.{LONGEST_NAME};
ghost use Rattle.fx_base.specs.Catalogue.{bytes_at, name_at, size_at, FileEntry};
ghost use Rattle.fx_base.specs.AddFault.{add_fault_of, has_name};
ghost use Rattle.fx_base.specs.declared.catalogue.AddFault.TheVariants.{NoMemory};

use crate::mark::Mark;
use crate::name::is_name;
use crate::open_file::OpenFile;
use std::alloc::{AllocError, AllocFailed, Global};
use std::collections::HashMap;
use std::marker::Model;

/// The greatest number of entries in a catalogue.
pub const MOST_ENTRIES: usize = 256;

/// The greatest number of bytes in an entry.
pub const LONGEST_ENTRY: usize = 4096;

/// The reason why a file was not added. [`Catalogue::add`] checks for these faults in the order of
/// the variants.
#[derive(Clone, Copy, Debug, PartialEq, Eq)]
pub enum AddFault {
    /// The catalogue already has [`MOST_ENTRIES`] entries.
    TooMany,
    /// The name has no bytes.
    EmptyName,
    /// The name has more than 32 bytes, or a byte other than an ASCII letter, a digit, `.`, `_` or
    /// `-`.
    BadName,
    /// An entry with this name exists already.
    SameName,
    /// The file has more than [`LONGEST_ENTRY`] bytes.
    TooLong,
    /// An allocation for the new entry failed.
    NoMemory,
}

impl<T: Drop> From<AllocFailed<T>> for AddFault {
    ghost from_gives = { λ _ e. e ≡ NoMemory };

    fn from(_refused: AllocFailed<T>) -> AddFault {
        AddFault::NoMemory
    }
}

impl From<AllocError> for AddFault {
    ghost from_gives = { λ _ e. e ≡ NoMemory };

    fn from(_refused: AllocError) -> AddFault {
        AddFault::NoMemory
    }
}

// A file that can be opened.
#[derive(Debug, Drop)]
struct Entry {
    name: String,
    bytes: Vec<u8>,
}

/// The files that can be opened: at most 256 entries, each with a name of its own and at most 4,096
/// bytes. An entry keeps its place, counted from 0, and its bytes never change (a kernel opens
/// files of a file system).
#[derive(Debug, Drop)]
pub struct Catalogue {
    entries: Vec<Entry>,
    // The place of each name, so that a look-up by name doesn't search the whole catalogue.
    places: HashMap<String, u8>,
}

impl Model for Catalogue {
    ghost use Rattle.std.specs.Prelude.{List};
    ghost use Rattle.fx_base.specs.Catalogue.{FileEntry, IsCatalogue};

    ghost Value = { List FileEntry };

    ghost use Rattle.fx_base.specs.CatalogueView.{file_entries_of};

    ghost view = { λ catalogue. file_entries_of catalogue.entries.items };

    ghost use Rattle.fx_base.specs.Places.{ArePlaces};

    ghost invariant = { λ catalogue.
        IsCatalogue (file_entries_of catalogue.entries.items)
        × ArePlaces catalogue.places (file_entries_of catalogue.entries.items) };
}

impl Catalogue {
    /// Creates a catalogue without entries.
    pub fn new(alloc: Global) -> Catalogue
        ensures { result ≡ [] }
    {
        Catalogue {
            entries: Vec::new(alloc),
            places: HashMap::new(alloc),
        }
    }

    /// Returns the number of entries, at most 256.
    pub fn len(&self) -> u32
        ensures value { result ≡ length self.now }
        ensures few { result ≤ MOST_ENTRIES }
    {
        self.entries.len() as u32
    }

    /// Checks whether the catalogue has no entries.
    pub fn is_empty(&self) -> bool
        ensures { IsTrue result ↔ (self.now ≡ []) }
    {
        self.entries.is_empty()
    }

    /// Returns the place of the entry with this name, from 0, or `None` if no entry has the name.
    pub fn find(&self, name: &str) -> Option<u8>
        ensures found { IfSome result (λ entry. name_at self.now entry ≡ Some name.now) }
        ensures inside { IfSome result (λ entry. entry < length self.now) }
        ensures variant { is_some result ≡ has_name name.now self.now }
    {
        self.places.get(name).copied()
    }

    /// Returns the name of an entry, 1 to 32 bytes. Requires that the entry exists:
    /// [`Catalogue::find`] returned it, or it is below [`Catalogue::len`].
    pub fn name_of(&self, entry: u8) -> &str
        requires { entry < length self.now }
        ensures value { name_at self.now entry ≡ Some result.now }
        ensures name { IsTrue (is_name result.now) }
        ensures some { 1 ≤ length result.now }
        ensures short { length result.now ≤ LONGEST_NAME }
    {
        self.entries[entry as usize].name.as_str()
    }

    /// Returns the number of bytes of an entry, at most 4,096. Requires that the entry exists.
    pub fn size_of(&self, entry: u8) -> u32
        requires { entry < length self.now }
        ensures value { size_at self.now entry ≡ Some result }
        ensures small { result ≤ LONGEST_ENTRY }
    {
        self.entries[entry as usize].bytes.len() as u32
    }

    /// Opens an entry: returns a new open file with this mark and this tag, 0 for no tag
    /// (openat(2), read only). Requires that the entry exists.
    pub fn open(&self, entry: u8, mark: Mark, tag: u64) -> OpenFile
        requires { entry < length self.now }
        ensures entry { result.entry ≡ entry }
        ensures mark { result.mark ≡ mark }
        ensures tag { result.tag ≡ tag }
    {
        OpenFile::new(mark, entry, tag)
    }

    /// Appends the bytes of an entry from byte `off` on, at most `len` of them, and returns their
    /// number, at most 4,096 (read(2)). Appends none if the catalogue has no such entry. Requires
    /// room for `len` more bytes in `into` (`Vec::reserve`), so that it can't run out of memory;
    /// `into` keeps the room that isn't used.
    pub fn read_into(&self, entry: u8, off: u32, len: u32, into: &mut Vec<u8>) -> u32
        requires { vec_len into.old + len ≤ vec_capacity into.old }
        ensures bytes { into.new.items ≡ into.old.items ++ bytes_at self.now entry off len }
        ensures count { result ≡ length (bytes_at self.now entry off len) }
        ensures bound { result ≤ len }
        ensures small { result ≤ LONGEST_ENTRY }
        ensures capacity { vec_capacity into.old ≤ vec_capacity into.new }
    {
        let Some(e) = self.entries.get(entry as usize) else {
            return 0;
        };
        let part = part(e.bytes.as_slice(), off as usize, len as usize);
        into.extend_from_slice(part).unwrap();
        part.len() as u32
    }

    /// Appends an entry. The other entries keep their places.
    ///
    /// # Errors
    /// Returns the first fault that applies, in the order of [`AddFault`]. The catalogue then stays
    /// as it was, and the name and the bytes are dropped.
    pub fn add(&mut self, name: String, bytes: Vec<u8>) -> Result<(), AddFault>
        ensures fault { IfSome (add_fault_of self.old (string_bytes name) bytes.items)
            (λ fault. result ≡ Err fault) }
        ensures only_fault { IfNone (add_fault_of self.old (string_bytes name) bytes.items)
            (IsOkUnless result AddFault.NoMemory) }
        ensures ok { OnOk result
            (self.new ≡ self.old ++ record { name = string_bytes name; bytes = bytes.items } ∷ []) }
        ensures err { OnErr result (self.new ≡ self.old) }
    {
        if let Some(fault) = self.fault_of(name.as_str(), bytes.as_slice()) {
            return Err(fault);
        }
        let place = self.entries.len() as u8;
        self.entries.reserve(1)?;
        let key = name.clone()?;
        self.places.insert(key, place)?;
        self.entries.push_reserved(Entry { name, bytes });
        Ok(())
    }

    // Returns the first fault of a file that is to be added, or `None`.
    fn fault_of(&self, name: &str, bytes: &[u8]) -> Option<AddFault>
        ensures { result ≡ add_fault_of self.now name.now bytes.now }
    {
        if self.entries.len() >= MOST_ENTRIES {
            return Some(AddFault::TooMany);
        }
        if name.is_empty() {
            return Some(AddFault::EmptyName);
        }
        if !is_name(name.as_bytes()) {
            return Some(AddFault::BadName);
        }
        if self.find(name).is_some() {
            return Some(AddFault::SameName);
        }
        if bytes.len() > LONGEST_ENTRY {
            return Some(AddFault::TooLong);
        }
        None
    }
}

// Returns the bytes from `off` on, at most `len` of them.
fn part(bytes: &[u8], off: usize, len: usize) -> &[u8]
    ensures { result.now ≡ take len (drop off bytes.now) }
{
    if off >= bytes.len() {
        return &bytes[..0];
    }
    let rest = &bytes[off..];
    if len < rest.len() { &rest[..len] } else { rest }
}
