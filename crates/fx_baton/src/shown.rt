//! The order between the calls of two threads: a pass shows what it has seen, and another pass
//! learns it. Neither call makes an atomic step.
ghost use Rattle.fx_baton.specs.Showing.{shown_of, IsSeenOf};

use crate::pass::BatonPass;
use crate::table::BatonTable;
use crate::view::View;
use fx_seen::{Seen, learn, show};
use fx_table::RealTime;
use table_seats::{Learn, Show};

/// The history that a pass of a [`BatonTable`] had seen when it showed it. It has no bytes.
#[derive(Drop)]
pub struct BatonSeen {
    pub(crate) seen: Seen<View>,
}

impl RealTime for BatonTable {
    type Seen = BatonSeen;

    ghost shown = { shown_of };

    ghost shows = { IsSeenOf };

    fn show(&self, pass: &mut BatonPass) -> BatonSeen {
        BatonSeen {
            seen: show::<_, _, _, _, Show>(&self.table.shared, &mut pass.seat),
        }
    }

    fn again(&self, seen: &BatonSeen) -> BatonSeen {
        BatonSeen {
            seen: seen.seen.again(),
        }
    }

    fn learn(&self, pass: &mut BatonPass, seen: &BatonSeen) {
        learn::<_, _, _, _, Learn>(&self.table.shared, &mut pass.seat, &seen.seen);
    }
}
