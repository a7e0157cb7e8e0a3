//! The order between the calls of two threads: a pass shows what it has seen, and another pass
//! learns it. Neither call makes an atomic step.
ghost use Rattle.fx_counted.specs.Showing.{shown_of, IsSeenOf};

use crate::pass::CountedPass;
use crate::table::CountedTable;
use crate::view::View;
use fx_seen::{Seen, learn, show};
use fx_table::RealTime;
use table_seats::{Learn, Show};

/// The history that a pass of a [`CountedTable`] had seen when it showed it. It has no bytes.
#[derive(Drop)]
pub struct CountedSeen {
    pub(crate) seen: Seen<View>,
}

impl RealTime for CountedTable {
    type Seen = CountedSeen;

    ghost shown = { shown_of };

    ghost shows = { IsSeenOf };

    fn show(&self, pass: &mut CountedPass) -> CountedSeen {
        CountedSeen {
            seen: show::<_, _, _, _, Show>(&self.table.shared, &mut pass.seat),
        }
    }

    fn again(&self, seen: &CountedSeen) -> CountedSeen {
        CountedSeen {
            seen: seen.seen.again(),
        }
    }

    fn learn(&self, pass: &mut CountedPass, seen: &CountedSeen) {
        learn::<_, _, _, _, Learn>(&self.table.shared, &mut pass.seat, &seen.seen);
    }
}
