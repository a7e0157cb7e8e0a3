//! The real-time law of a shared table: what a thread does after another thread's call returned
//! follows that call.
ghost use Rattle.std.specs.Prelude.{◌≡◌, ◌<◌, None, List};
ghost use Rattle.fx_plain.specs.declared.event.Event.{Event};
ghost use Rattle.fx_table.specs.Opening.{size_of};
ghost use Rattle.fx_table.specs.Pass.{IsIdle};
ghost use Rattle.fx_table.specs.Showing.{Learns, LooksUpAfter};

use crate::file_table::FileTable;
use crate::values::{Hold, LookFault};
use std::sync::Wait;

/// A shared table whose calls respect real time.
///
/// A pass shows what it has seen, which includes all its own calls, as a value without bytes. The
/// value goes to another thread by whatever makes that thread continue after the calls returned: a
/// message, a join, a lock. That thread's pass learns the value. Every later event of that pass
/// follows all that was shown, in the one history of the table
/// (`laws::calls_follow_what_was_shown`). A pass may show and learn whatever it is doing. These
/// calls do nothing at run time.
pub trait RealTime: FileTable {
    /// The history that a pass had seen when it showed it. It has no bytes, and may be dropped.
    type Seen: Send + Sync + Drop;

    // The history that was shown.
    ghost shown: { Self.Seen → List Event };

    // The history was shown by a pass of this table.
    ghost shows: { Self → Self.Seen → Type 0 };

    /// Shows what the pass has seen. The pass stays as it is.
    fn show(&self, pass: &mut Self::Pass) -> Self::Seen
        requires fits { Self.fits self.now pass.old }
        ensures fits { Self.fits self.now pass.new }
        ensures same { Self.view pass.new ≡ Self.view pass.old }
        ensures here { shows self.now result }
        ensures shown { shown result ≡ (Self.view pass.old).front };

    /// Copies what was shown.
    fn again(&self, seen: &Self::Seen) -> Self::Seen
        requires here { shows self.now seen.now }
        ensures here { shows self.now result }
        ensures shown { shown result ≡ shown seen.now };

    /// Adds what was shown to the pass's front, so that all its later events follow it. Nothing
    /// else of the pass changes.
    fn learn(&self, pass: &mut Self::Pass, seen: &Self::Seen)
        requires fits { Self.fits self.now pass.old }
        requires here { shows self.now seen.now }
        ensures fits { Self.fits self.now pass.new }
        ensures learns { Learns (Self.opening self.now) (shown seen.now) (Self.view pass.old)
            (Self.view pass.new) };

    /// Learns what was shown, and then looks up a slot as [`FileTable::look`] does. If a file
    /// was put at the slot in what was shown, the look-up finds that file, or what a later change
    /// left there (`laws::a_look_up_finds_the_change`).
    ///
    /// # Errors
    /// The errors of [`FileTable::look`].
    fn look_up_after(
        &self,
        rt: &impl Wait,
        pass: &mut Self::Pass,
        slot: u32,
        seen: &Self::Seen,
    ) -> Result<Hold, LookFault>
        requires fits { Self.fits self.now pass.old }
        requires idle { IsIdle (Self.view pass.old) }
        requires slot { slot < size_of (Self.opening self.now) }
        requires here { shows self.now seen.now }
        ensures fits { Self.fits self.now pass.new }
        ensures looked { LooksUpAfter (Self.opening self.now) (shown seen.now)
            (Self.view pass.old) slot result None (Self.view pass.new) }
    {
        self.learn(pass, seen);
        self.look(rt, pass, slot)
    }
}
