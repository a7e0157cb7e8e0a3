//! The passes of the table guarded by one word.
ghost use Rattle.fx_baton.specs.Lives.{IsNewPass};

use crate::view::View;
use atomic_table::Seat;
use fx_plain::PlainTable;
use fx_table::PASS_LOOKS;

/// A pass of a [`crate::BatonTable`]. It must be consumed: the compiler rejects a program that
/// drops one. Two neighbouring passes of a list are 128 bytes apart, so that threads that use them
/// share no cache line.
pub struct BatonPass {
    pub(crate) seat: Seat<PlainTable, View>,
    // From 1 to the number of passes.
    pub(crate) number: u32,
    pub(crate) passes: u32,
    // The number of chains that were drawn, the last of them or 0, and whether there are no more.
    pub(crate) count: u32,
    pub(crate) chain: u32,
    pub(crate) no_chains_left: bool,
    pub(crate) numbers_left: u32,
    pub(crate) looks_left: u32,
    pub(crate) idle: bool,
    pub(crate) spacing: Spacing,
}

// The distance between a pass and the next one: the fields before it take 32 bytes.
#[derive(Drop)]
pub(crate) struct Spacing {
    unused: [u64; 12],
}

impl BatonPass {
    pub(crate) fn new(seat: Seat<PlainTable, View>, number: u32, passes: u32) -> BatonPass
        ensures { IsNewPass seat number passes result }
    {
        BatonPass {
            seat,
            number,
            passes,
            count: 0,
            chain: 0,
            no_chains_left: false,
            numbers_left: 0,
            looks_left: PASS_LOOKS,
            idle: true,
            spacing: Spacing { unused: [0; 12] },
        }
    }
}
