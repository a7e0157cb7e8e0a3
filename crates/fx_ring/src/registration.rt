//! The calls between submissions: registrations, updates, the allocation range.
ghost use Rattle.std.specs.Prelude.{◌≡◌, ◌<◌, ◌≤◌, false, length, Ok, Err, IfSome, IfNone, IfOk};
ghost use Rattle.std.specs.Prelude.{OnOk, OnErr};
ghost use Rattle.fx_base.specs.declared.errno.Errno.TheVariants.{ENOMEM};
ghost use Rattle.std.specs.List.{list_any};
ghost use Rattle.fx_chain.specs.Answers.{is_bad_entry};
ghost use Rattle.fx_ring.specs.Ring.{files_of_ring, ring_of, without_table};
ghost use Rattle.fx_ring.specs.Calls.{FailsOnlyAs, ListsFiles};
ghost use Rattle.fx_ring.specs.Registration.{Registers, Updates, is_bad_file, range_refusal};
ghost use Rattle.fx_ring.specs.Registration.{register_refusal, registered_sparse, sparse_refusal};
ghost use Rattle.fx_ring.specs.Registration.{unregister_refusal, update_refusal};
ghost use Rattle.fx_ring.specs.Tags.{no_tags, tags_for};

use crate::call_refusal::{register_refusal, sparse_refusal, update_refusal};
use crate::list::{NumberList, apply_list};
use crate::ring::{MOST_REGISTRATIONS, Ring};
use fx_base::{CloseList, Errno, MOST_ENTRIES};
use fx_plain::{MOST_SLOTS, PlainTable};
use std::alloc::Global;
use std::mem;

impl Ring {
    // Returns the reason to refuse a registration of the list with its tags, if any are given.
    fn register_refusal(&self, list: &[i32], tags: Option<&[u64]>) -> Option<Errno>
        ensures value { result ≡ register_refusal (ring_of self.now) list.now
            (tags_for list.now tags.entry) }
        ensures entries { IfNone result (length self.now.catalogue ≤ MOST_ENTRIES) }
        ensures good { IfNone result
            (list_any (is_bad_file (length self.now.catalogue)) list.now ≡ false) }
        ensures few { IfNone result (self.now.registrations < MOST_REGISTRATIONS) }
    {
        let size = self.table.size() as usize;
        register_refusal(&self.catalogue, size, self.registrations, list, tags)
    }

    // Returns the reason to refuse an update of the slots from `off` on by the list with its tags,
    // if any are given.
    fn update_refusal(&self, off: u32, list: &[i32], tags: Option<&[u64]>) -> Option<Errno>
        ensures value { result ≡ update_refusal (ring_of self.now) off list.now
            (tags_for list.now tags.entry) }
        ensures entries { IfNone result (length self.now.catalogue ≤ MOST_ENTRIES) }
        ensures good { IfNone result
            (list_any (is_bad_entry (length self.now.catalogue)) list.now ≡ false) }
        ensures few { IfNone result (self.now.registrations < MOST_REGISTRATIONS) }
        ensures short { IfNone result (length list.now ≤ MOST_SLOTS) }
    {
        let size = self.table.size() as usize;
        update_refusal(&self.catalogue, size, self.registrations, off, list, tags)
    }

    // Registers a list with its tags, if any are given.
    fn register_list(
        &mut self,
        alloc: Global,
        list: &[i32],
        tags: Option<&[u64]>,
    ) -> Result<(), Errno>
        ensures { Registers self.old list.now (tags_for list.now tags.entry) result self.new }
    {
        if let Some(errno) = self.register_refusal(list, tags) {
            return Err(errno);
        }
        let Ok(mut closes) = CloseList::with_room(alloc, 0) else {
            return Err(Errno::ENOMEM);
        };
        let Ok(mut table) = PlainTable::sparse(alloc, list.len() as u32) else {
            return Err(Errno::ENOMEM);
        };
        let k = self.registrations + 1;
        let numbers = NumberList {
            catalogue: &self.catalogue,
            k,
            off: 0,
            list,
            tags,
        };
        let Ok(()) = apply_list(&mut table, &numbers, &mut closes) else {
            table.dismiss();
            return Err(Errno::ENOMEM);
        };
        mem::replace(&mut self.table, table).dismiss();
        self.registrations = k;
        Ok(())
    }

    /// Registers a table with a slot for each number of the list (io_uring_register(2),
    /// "IORING_REGISTER_FILES"). -1 is an empty slot, and a number from 0 on is the catalogue entry
    /// to open there. The allocation range is the whole table. The files have no tags (see
    /// [`Ring::register_tagged`]).
    ///
    /// The `k` of a file's mark is the number of this call among the accepted calls of `register`,
    /// `register_tagged`, `update` and `update_tagged`, from 1. Its `i` is the place in the list,
    /// from 0.
    ///
    /// # Errors
    /// In this order: EBUSY if the ring has a table, EINVAL for an empty list, EMFILE for more than
    /// 256 numbers, EBADF for a number below -1 or outside the catalogue, EAGAIN after 65,535
    /// accepted calls of these four, and ENOMEM if memory is refused. The ring is then as before.
    pub fn register(&mut self, alloc: Global, list: &[i32]) -> Result<(), Errno>
        ensures { Registers self.old list.now (no_tags list.now) result self.new }
    {
        self.register_list(alloc, list, None)
    }

    /// Registers a table as [`Ring::register`] does, and assigns each file the tag at the same
    /// place, 0 for none (io_uring_register(2), "IORING_REGISTER_FILES2"). Once a file with a tag
    /// is closed, the list that names it returns the completion of its tag ([`CloseList::tags`]).
    ///
    /// # Errors
    /// Those of [`Ring::register`], in the same order. EINVAL is also returned, in its place in
    /// that order, if `tags` and `list` differ in length or a number below 0 has a tag other than
    /// 0. The ring is then as before.
    pub fn register_tagged(
        &mut self,
        alloc: Global,
        list: &[i32],
        tags: &[u64],
    ) -> Result<(), Errno>
        ensures { Registers self.old list.now tags.now result self.new }
    {
        self.register_list(alloc, list, Some(tags))
    }

    /// Registers a table of `n` empty slots (io_uring_register_files(3),
    /// `io_uring_register_files_sparse`). The allocation range is the whole table. The call doesn't
    /// count as a registration.
    ///
    /// # Errors
    /// In this order: EBUSY if the ring has a table, EINVAL for no slots, EMFILE for more than 256,
    /// and ENOMEM if memory is refused. The ring is then as before.
    pub fn register_sparse(&mut self, alloc: Global, n: u32) -> Result<(), Errno>
        ensures failure { FailsOnlyAs (sparse_refusal (ring_of self.old) n) ENOMEM result }
        ensures ok { OnOk result (ring_of self.new ≡ registered_sparse (ring_of self.old) n) }
        ensures err { OnErr result (self.new ≡ self.old) }
    {
        if let Some(errno) = sparse_refusal(self.table.size() as usize, n as usize) {
            return Err(errno);
        }
        let Ok(table) = PlainTable::sparse(alloc, n) else {
            return Err(Errno::ENOMEM);
        };
        mem::replace(&mut self.table, table).dismiss();
        Ok(())
    }

    /// Unregisters the table and closes its files. The list has all of them, in order of mark
    /// (io_uring_register(2), "IORING_UNREGISTER_FILES").
    ///
    /// # Errors
    /// ENXIO if the ring has no table, and else ENOMEM if the memory of the list is refused. The
    /// ring is then as before.
    pub fn unregister(&mut self, alloc: Global) -> Result<CloseList, Errno>
        ensures failure { FailsOnlyAs (unregister_refusal (ring_of self.old)) ENOMEM result }
        ensures ok { OnOk result (ring_of self.new ≡ without_table (ring_of self.old)) }
        ensures closes { IfOk result (λ closes.
            ListsFiles (ring_of self.old) (files_of_ring (ring_of self.old)) closes) }
        ensures err { OnErr result (self.new ≡ self.old) }
    {
        if self.table.size() == 0 {
            return Err(Errno::ENXIO);
        }
        let Ok(mut closes) = CloseList::with_room(alloc, self.table.full()) else {
            return Err(Errno::ENOMEM);
        };
        self.table.empty_into(&mut closes);
        closes.sort();
        Ok(closes)
    }

    /// Sets the allocation range (io_uring_register(2), "IORING_REGISTER_FILE_ALLOC_RANGE"). Length
    /// 0 is permitted.
    ///
    /// # Errors
    /// EINVAL if `off + len`, without overflow, is above the size. The ring is then as before.
    pub fn alloc_range(&mut self, off: u32, len: u32) -> Result<(), Errno>
        ensures refused { IfSome (range_refusal (ring_of self.old) off len)
            (λ errno. result ≡ Err errno) }
        ensures accepted { IfNone (range_refusal (ring_of self.old) off len) (result ≡ Ok tt) }
        ensures ok { OnOk result
            (ring_of self.new ≡ record (ring_of self.old) { range = (off, len) }) }
        ensures err { OnErr result (self.new ≡ self.old) }
    {
        let Ok(()) = self.table.set_range(off, len) else {
            return Err(Errno::EINVAL);
        };
        Ok(())
    }

    // Updates the slots from `off` on by a list with its tags, if any are given.
    fn update_list(
        &mut self,
        alloc: Global,
        off: u32,
        list: &[i32],
        tags: Option<&[u64]>,
    ) -> Result<(u32, CloseList), Errno>
        ensures { Updates self.old off list.now (tags_for list.now tags.entry) result self.new }
    {
        if let Some(errno) = self.update_refusal(off, list, tags) {
            return Err(errno);
        }
        let len = list.len() as u32;
        let Ok(mut closes) = CloseList::with_room(alloc, len) else {
            return Err(Errno::ENOMEM);
        };
        let numbers = NumberList {
            catalogue: &self.catalogue,
            k: self.registrations + 1,
            off,
            list,
            tags,
        };
        let Ok(()) = apply_list(&mut self.table, &numbers, &mut closes) else {
            return Err(Errno::ENOMEM);
        };
        self.registrations += 1;
        closes.sort();
        Ok((len, closes))
    }

    /// Updates the slots from `off` on by a list (io_uring_register(2),
    /// "IORING_REGISTER_FILES_UPDATE"): -1 empties a slot, -2 leaves it, and a number from 0 on
    /// opens that catalogue entry there. Returns the length of the list, and the files that were
    /// replaced or removed, in order of mark. Marks are made as by [`Ring::register`]. The new
    /// files have no tags (see [`Ring::update_tagged`]).
    ///
    /// # Errors
    /// In this order: ENXIO if the ring has no table, EINVAL for an empty list or one that ends
    /// after the last slot, EBADF for a number below -2 or outside the catalogue, EAGAIN after
    /// 65,535 accepted calls of `register`, `register_tagged`, `update` and `update_tagged`, and
    /// ENOMEM if memory is refused. The ring is then as before.
    pub fn update(
        &mut self,
        alloc: Global,
        off: u32,
        list: &[i32],
    ) -> Result<(u32, CloseList), Errno>
        ensures { Updates self.old off list.now (no_tags list.now) result self.new }
    {
        self.update_list(alloc, off, list, None)
    }

    /// Updates slots as [`Ring::update`] does, and assigns each new file the tag at the same place,
    /// 0 for none (io_uring_register(2), "IORING_REGISTER_FILES_UPDATE2"). A file that was replaced
    /// or removed is listed with the tag that it was installed with ([`CloseList::tags`]).
    ///
    /// # Errors
    /// Those of [`Ring::update`], in the same order. EINVAL is also returned, in its place in that
    /// order, if `tags` and `list` differ in length or a number below 0 has a tag other than 0. The
    /// ring is then as before.
    pub fn update_tagged(
        &mut self,
        alloc: Global,
        off: u32,
        list: &[i32],
        tags: &[u64],
    ) -> Result<(u32, CloseList), Errno>
        ensures { Updates self.old off list.now tags.now result self.new }
    {
        self.update_list(alloc, off, list, Some(tags))
    }
}
