//! The type of a ring: how one is made, read and ended.
ghost use Rattle.std.specs.Prelude.{◌≡◌, IfOk, IfErr};
ghost use Rattle.fx_ring.specs.Calls.{ListsFiles};
ghost use Rattle.fx_ring.specs.Ring.{IsRing, files_of_ring, new_ring, ring_of};

use fx_base::{Catalogue, CloseList, NoMemory};
use fx_plain::PlainTable;
use std::alloc::Global;
use std::marker::Model;

/// The most submissions that a ring accepts.
pub const MOST_SUBMISSIONS: u32 = 65_535;

/// The most registrations and updates that a ring accepts together.
pub const MOST_REGISTRATIONS: u32 = 65_535;

/// A ring (io_uring_setup(2)): the catalogue, the registered file table, and the numbers of
/// accepted submissions and registrations. It must be consumed: the compiler rejects a program that
/// drops a ring without [`Ring::tear_down`] or [`Ring::abandon`].
///
/// A ring without a table has a table of no slots. Contracts see a ring by `ring_of`, which leaves
/// out the numbers of its files. Each file is an entry of the catalogue. No two files have the same
/// mark, and no mark names a registration or submission that the ring has not counted.
pub struct Ring {
    pub(crate) catalogue: Catalogue,
    pub(crate) table: PlainTable,
    pub(crate) submissions: u32,
    pub(crate) registrations: u32,
}

impl Model for Ring {
    ghost use Rattle.fx_ring.specs.Ring.{RingContents, IsAtRest, ring_with};

    ghost Value = { RingContents };

    ghost view = { λ ring. ring_with ring.catalogue ring.table ring.submissions
        ring.registrations };

    ghost invariant = { λ ring. IsAtRest (ring_with ring.catalogue ring.table ring.submissions
        ring.registrations) };
}

impl Ring {
    /// Makes a ring without a table. It needs no memory (io_uring_setup(2)).
    pub fn new(alloc: Global, catalogue: Catalogue) -> Ring
        ensures { ring_of result ≡ new_ring catalogue }
    {
        Ring {
            catalogue,
            table: PlainTable::none(alloc),
            submissions: 0,
            registrations: 0,
        }
    }

    /// Returns the catalogue: the files that can be opened.
    pub fn catalogue(&self) -> &Catalogue
        ensures { result.now ≡ (ring_of self.now).catalogue }
    {
        &self.catalogue
    }

    /// Returns the number of slots: 1 to 256, or 0 without a table.
    pub fn size(&self) -> u32
        ensures value { result ≡ (ring_of self.now).size }
        ensures sound { IsRing (ring_of self.now) }
    {
        self.table.size()
    }

    /// Returns the allocation range as its first slot and its number of slots, or (0, 0) without a
    /// table.
    pub fn range(&self) -> (u32, u32)
        ensures { result ≡ (ring_of self.now).range }
    {
        self.table.range()
    }

    /// Returns the number of accepted submissions, at most 65,535.
    pub fn submissions(&self) -> u32
        ensures { result ≡ (ring_of self.now).submissions }
    {
        self.submissions
    }

    /// Returns the number of accepted calls of [`Ring::register`], [`Ring::register_tagged`],
    /// [`Ring::update`] and [`Ring::update_tagged`], at most 65,535.
    pub fn registrations(&self) -> u32
        ensures { result ≡ (ring_of self.now).registrations }
    {
        self.registrations
    }

    /// Ends the ring and closes its files. The list has all files of the table, in order of mark
    /// (close(2) of the ring).
    ///
    /// # Errors
    /// `NoMemory` if the memory of the list is refused. The ring is returned as it was.
    pub fn tear_down(self, alloc: Global) -> Result<CloseList, (Ring, NoMemory)>
        ensures closes { IfOk result (λ closes.
            ListsFiles (ring_of self) (files_of_ring (ring_of self)) closes) }
        ensures refused { IfErr result (λ back. back.0 ≡ self) }
    {
        let Ok(mut closes) = CloseList::with_room(alloc, self.table.full()) else {
            return Err((self, NoMemory));
        };
        let Ring {
            catalogue: _,
            mut table,
            submissions: _,
            registrations: _,
        } = self;
        table.empty_into(&mut closes);
        table.dismiss();
        closes.sort();
        Ok(closes)
    }

    /// Ends the ring and drops its files without listing them. It is the way out after a fault, and
    /// needs no memory.
    pub fn abandon(self) {
        let Ring {
            catalogue: _,
            table,
            submissions: _,
            registrations: _,
        } = self;
        table.abandon();
    }
}
