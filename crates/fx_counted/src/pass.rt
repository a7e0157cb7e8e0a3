//! The passes of the lock-free table.
ghost use Rattle.std.specs.Prelude.{◌≡◌};
ghost use Rattle.fx_counted.specs.Lives.{IsNewPass};

use crate::view::View;
use atomic_table::Seat;
use fx_base::OpenFile;
use fx_table::PASS_LOOKS;

/// A pass of a [`crate::CountedTable`]. It must be consumed: the compiler rejects a program that
/// drops one. Two neighbouring passes of a list are 128 bytes apart, so that threads that use them
/// share no cache line.
pub struct CountedPass {
    pub(crate) seat: Seat<Option<OpenFile>, View>,
    // The chain that was drawn last, or 0, and whether there are no more.
    pub(crate) chain: u32,
    pub(crate) no_chains_left: bool,
    pub(crate) numbers_left: u32,
    pub(crate) looks_left: u32,
    pub(crate) idle: bool,
    pub(crate) spacing: Spacing,
}

// The distance between a pass and the next one: the fields before it take 16 bytes.
#[derive(Drop)]
pub(crate) struct Spacing {
    unused: [u64; 14],
}

impl CountedPass {
    // Creates the pass of a seat that has made no step.
    pub(crate) fn new(seat: Seat<Option<OpenFile>, View>) -> CountedPass
        ensures { IsNewPass seat result }
    {
        CountedPass {
            seat,
            chain: 0,
            no_chains_left: false,
            numbers_left: 0,
            looks_left: PASS_LOOKS,
            idle: true,
            spacing: Spacing { unused: [0; 14] },
        }
    }

    // Returns the seat of the pass.
    pub(crate) fn into_seat(self) -> Seat<Option<OpenFile>, View>
        ensures { result ≡ self.seat }
    {
        let CountedPass {
            seat,
            chain: _,
            no_chains_left: _,
            numbers_left: _,
            looks_left: _,
            idle: _,
            spacing: _,
        } = self;
        seat
    }
}
