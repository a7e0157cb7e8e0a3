//! Lists of closes: the files that were closed, in order.
ghost use Rattle.std.specs.Prelude.{◌≡◌, ◌+◌, ◌-◌, ◌<◌, ◌≤◌, [], ◌∷◌, ◌++◌, length};
ghost use Rattle.std.specs.Prelude.{IfOk, IsPermutation};
ghost use Rattle.fx_base.specs.CloseList.{IsInOrderOfMark};
ghost use Rattle.fx_base.specs.Tags.{tags_of};

use crate::no_memory::NoMemory;
use crate::open_file::{Closed, OpenFile};
use crate::tag_completion::TagCompletion;
use std::alloc::Global;
use std::marker::Model;

/// The files that were closed, in order, and the number of further files that the list has reserved
/// room for (this project's own; a kernel's close leaves no list). Contracts see the files as
/// `files` and that number as `room`.
#[derive(Debug, Drop)]
pub struct CloseList {
    files: Vec<Closed>,
    room: u32,
}

impl Model for CloseList {
    ghost use Rattle.std.specs.Prelude.{◌+◌, ◌<◌, ◌≤◌, vec_len, vec_capacity};
    ghost use Rattle.fx_base.specs.CloseListView.{CloseListView};

    ghost Value = { CloseListView };

    ghost view = { λ list. record { files = list.files.items; room = list.room } };

    ghost invariant = { λ list.
        (vec_len list.files + list.room ≤ vec_capacity list.files)
        × (vec_len list.files + list.room < 4294967296) };
}

impl CloseList {
    /// Creates an empty list with room for `n` files. It allocates the memory for all of them now.
    ///
    /// # Errors
    /// `NoMemory` if that allocation fails.
    pub fn with_room(alloc: Global, n: u32) -> Result<CloseList, NoMemory>
        ensures { IfOk result (λ list. list ≡ record { files = []; room = n }) }
    {
        let files = Vec::with_capacity(alloc, n as usize)?;
        Ok(CloseList { files, room: n })
    }

    /// Returns the number of further files that the list has room for.
    pub fn room(&self) -> u32
        ensures { result ≡ self.now.room }
    {
        self.room
    }

    /// Returns the number of files in the list.
    pub fn len(&self) -> u32
        ensures { result ≡ length self.now.files }
    {
        self.files.len() as u32
    }

    /// Returns the files in the order in which they were closed, or in the order of marks after
    /// [`CloseList::sort`].
    pub fn files(&self) -> &[Closed]
        ensures { result.now ≡ self.now.files }
    {
        self.files.as_slice()
    }

    /// Closes a file (close(2)): appends it to the list and uses one place of the room. Requires
    /// that there is room, so that [`CloseList::room`] is above 0; it can't run out of memory.
    pub fn close(&mut self, file: OpenFile)
        requires { 0 < self.old.room }
        ensures files { self.new.files ≡ self.old.files ++ file ∷ [] }
        ensures room { self.new.room + 1 ≡ self.old.room }
    {
        self.files.push_reserved(file.close());
        self.room -= 1;
    }

    /// Appends the files of another list, in their order. The room shrinks by their number, and the
    /// other list's own room is lost. Requires that [`CloseList::room`] is at least the number of
    /// the other list's files ([`CloseList::files`]), so that it can't fail.
    pub fn append(&mut self, other: CloseList)
        requires { length other.files ≤ self.old.room }
        ensures files { self.new.files ≡ self.old.files ++ other.files }
        ensures room { self.new.room + length other.files ≡ self.old.room }
    {
        let CloseList { mut files, room: _ } = other;
        let room = self.room as usize - files.len();
        self.files.append(&mut files).unwrap();
        self.room = room as u32;
    }

    /// Sorts the files by mark, in place. It can't run out of memory, and the room stays the same.
    pub fn sort(&mut self)
        ensures same_files { IsPermutation self.old.files self.new.files }
        ensures in_order { IsInOrderOfMark self.new.files }
        ensures room { self.new.room ≡ self.old.room }
    {
        self.files.sort_unstable_by_key(|file| file.mark);
    }

    /// Returns the completions of the files' tags, in the order of the files: one for each file
    /// whose tag isn't 0 (io_uring_register(2), "IORING_REGISTER_FILES2"). The list stays the same,
    /// so a second call returns the same completions.
    ///
    /// # Errors
    /// `NoMemory` if the allocation for the completions fails.
    pub fn tags(&self, alloc: Global) -> Result<Vec<TagCompletion>, NoMemory>
        ensures { IfOk result (λ tags. tags.items ≡ tags_of self.now.files) }
    {
        let tagged = self.files.iter().filter(|file| file.tag != 0);
        let tags = tagged.map(|file| TagCompletion::of(file.tag));
        Ok(tags.collect(alloc)?)
    }
}
