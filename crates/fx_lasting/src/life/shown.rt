//! The order between the calls of two threads: a pass shows what it has seen, and another pass
//! learns it. Neither call makes an atomic step.
ghost use Rattle.std.specs.Prelude.{◌≡◌, ◌≢◌, ◌<◌};
ghost use Rattle.fx_lasting.specs.Words.{Err, size_of, IsIdle, Spent};
ghost use Rattle.fx_table.specs.Showing.{Learns, LooksUpAfter};
ghost use Rattle.fx_lasting.specs.Tables.{view_of, opening_of_table, IsPassOfTable};
ghost use Rattle.fx_lasting.specs.life.Showing.{shown_of, IsSeenOf};

use crate::pass::LastingPass;
use crate::table::LastingTable;
use crate::view::View;
use fx_seen::{Seen, learn, show};
use fx_table::LookUp;
use table_seats::{Learn, Show};

/// The history that a pass of a [`LastingTable`] had seen when it showed it. It has no bytes. It
/// goes to another thread by whatever makes that thread continue after the calls returned. Every
/// later event of a pass that learns it follows all that was shown, in the one history of the table
/// (`fx_table::laws::calls_follow_what_was_shown`).
#[derive(Drop)]
pub struct LastingSeen {
    pub(crate) seen: Seen<View>,
}

impl LastingTable {
    /// Shows what the pass has seen, whatever it is doing. The pass stays as it is.
    pub fn show(&self, pass: &mut LastingPass) -> LastingSeen
        requires fits { IsPassOfTable self.now pass.old }
        ensures fits { IsPassOfTable self.now pass.new }
        ensures same { view_of pass.new ≡ view_of pass.old }
        ensures here { IsSeenOf self.now result }
        ensures shown { shown_of result ≡ (view_of pass.old).front }
    {
        LastingSeen {
            seen: show::<_, _, _, _, Show>(&self.table.shared, &mut pass.seat),
        }
    }

    /// Copies what was shown.
    pub fn again(&self, seen: &LastingSeen) -> LastingSeen
        requires here { IsSeenOf self.now seen.now }
        ensures here { IsSeenOf self.now result }
        ensures shown { shown_of result ≡ shown_of seen.now }
    {
        LastingSeen {
            seen: seen.seen.again(),
        }
    }

    /// Adds what was shown to the pass's front, whatever the pass is doing, so that all its later
    /// events follow it. Nothing else of the pass changes.
    pub fn learn(&self, pass: &mut LastingPass, seen: &LastingSeen)
        requires fits { IsPassOfTable self.now pass.old }
        requires here { IsSeenOf self.now seen.now }
        ensures fits { IsPassOfTable self.now pass.new }
        ensures learns { Learns (opening_of_table self.now) (shown_of seen.now) (view_of pass.old)
            (view_of pass.new) }
    {
        learn::<_, _, _, _, Learn>(&self.table.shared, &mut pass.seat, &seen.seen);
    }

    /// Learns what was shown, and then looks up a slot as [`LastingTable::look_up`] does. If a file
    /// was put at the slot in what was shown, the look-up finds that file, or what a later change
    /// left there (`fx_table::laws::a_look_up_finds_the_change`).
    ///
    /// # Errors
    /// The errors of [`LastingTable::look_up`].
    pub fn look_up_after(&self, pass: &mut LastingPass, slot: u32, seen: &LastingSeen) -> LookUp
        requires fits { IsPassOfTable self.now pass.old }
        requires idle { IsIdle (view_of pass.old) }
        requires slot { slot < size_of (opening_of_table self.now) }
        requires here { IsSeenOf self.now seen.now }
        ensures fits { IsPassOfTable self.now pass.new }
        ensures looked { LooksUpAfter (opening_of_table self.now) (shown_of seen.now)
            (view_of pass.old) slot result.found result.freed (view_of pass.new) }
        ensures never_spent { result.found ≢ Err Spent }
    {
        self.learn(pass, seen);
        self.look_up(pass, slot)
    }
}
