//! The passes of the table.
ghost use Rattle.std.specs.Prelude.{◌≡◌};
ghost use Rattle.fx_lasting.specs.life.Lives.{IsNewPass};

use crate::range::recent::Emptied;
use crate::view::View;
use atomic_table::Seat;
use fx_base::OpenFile;

/// A pass of a [`crate::LastingTable`]. It must be consumed: the compiler rejects a program that
/// drops one without [`crate::LastingTable::close`] or [`LastingPass::abandon`]. Two neighbouring
/// passes of a list are 128 bytes apart, so that threads that use them share no cache line.
pub struct LastingPass {
    pub(crate) seat: Seat<Option<OpenFile>, View>,
    // The number of the pass, from 1.
    pub(crate) number: u32,
    // The nodes for its next files, which no slot names.
    pub(crate) stock: Vec<u32>,
    // The entry of its stock where its next search begins.
    pub(crate) next_entry: u32,
    // The flag that it keeps the node at that entry for its next file.
    pub(crate) keeps: bool,
    // The first pass that its next retirement may visit, if it has a file to retire.
    pub(crate) next_visit: u32,
    pub(crate) idle: bool,
    // The flag that it holds its file by its hold word, if it holds one.
    pub(crate) guarded: bool,
    // The flag that the list has its bit.
    pub(crate) listed: bool,
    // The flag that it found each group full after it had set its bit in the question word.
    pub(crate) sure: bool,
    // The slots at which its next allocations begin to look.
    pub(crate) emptied: Emptied,
    pub(crate) spacing: Spacing,
}

// The distance between a pass and the next one: the fields before it take 88 bytes.
#[derive(Drop)]
pub(crate) struct Spacing {
    unused: [u64; 5],
}

impl LastingPass {
    // Creates the pass of a seat that has made no step.
    pub(crate) fn new(
        seat: Seat<Option<OpenFile>, View>,
        number: u32,
        stock: Vec<u32>,
    ) -> LastingPass
        ensures { IsNewPass seat number stock.items result }
    {
        LastingPass {
            seat,
            number,
            stock,
            next_entry: 0,
            keeps: false,
            next_visit: 0,
            idle: true,
            guarded: false,
            listed: false,
            sure: false,
            emptied: Emptied::new(),
            spacing: Spacing { unused: [0; 5] },
        }
    }

    // Returns the seat of the pass.
    pub(crate) fn into_seat(self) -> Seat<Option<OpenFile>, View>
        ensures { result ≡ self.seat }
    {
        let LastingPass {
            seat,
            number: _,
            stock: _,
            next_entry: _,
            keeps: _,
            next_visit: _,
            idle: _,
            guarded: _,
            listed: _,
            sure: _,
            emptied: _,
            spacing: _,
        } = self;
        seat
    }

    /// Consumes the pass of a table that is abandoned, or is to be
    /// ([`crate::LastingTable::abandon`]). A file that it holds or has to retire stays in the
    /// table's places, and is never returned.
    pub fn abandon(self) {
        let _seat = self.into_seat();
    }
}
