//! Letting a file go: the charge of an announcement that came too late, and the hold of a file.
ghost use Rattle.std.specs.Prelude.{◌≡◌};
ghost use Rattle.fx_lasting.specs.Words.{ℕ, [], File, Announced, Guarded, Owing};
ghost use Rattle.fx_lasting.specs.AtWork.{IsAtWork, IsReleasing};
ghost use Rattle.fx_lasting.specs.Ends.{LetsChargeGo, LetsFileGo};
ghost use Rattle.fx_lasting.specs.Laws.{HasToLetGo};

use crate::fields::announced;
use crate::kinds::{Letting, SteppingDown, Withdrawing};
use crate::table::LastingTable;
use crate::view::View;
use atomic_table::Seat;
use fx_base::OpenFile;

impl LastingTable {
    // Subtracts the charge that the pass owes, or the hold that it releases, from the node's word,
    // in at most two steps. Returns the file if it was retired and no other pass uses it.
    #[inline(always)]
    pub(crate) fn let_go(
        &self,
        seat: &mut Seat<Option<OpenFile>, View>,
        node: u32,
    ) -> Option<OpenFile>
        requires table { seat.old.table_id ≡ self.now.table.shared.table_id }
        requires at { (number : ℕ) × IsAtWork self.now.table.shared.key number seat.old.me }
        requires has { HasToLetGo seat.old.me.0.work node }
        requires places { seat.old.me.1 ≡ [] }
        ensures table { seat.new.table_id ≡ seat.old.table_id }
        ensures owed { seat.old.me.0.work ≡ Owing node
            → LetsChargeGo seat.old.me 2 result seat.new.me }
        ensures held { (f : File) → IsReleasing seat.old.me.0.work f node
            → LetsFileGo seat.old.me f 2 result seat.new.me }
        ensures places { seat.new.me.1 ≡ [] }
    {
        let place = self.node_place(node);
        let found = self.table.shared.fetch_sub::<Letting>(seat, place, 1);
        if found != 2 {
            return None;
        }
        Some(self.take_out(seat, node))
    }

    // Withdraws the pass's announcement of the node, in at most three steps. Returns the file if it
    // was retired and no other pass uses it.
    #[inline(always)]
    pub(crate) fn withdraw(
        &self,
        seat: &mut Seat<Option<OpenFile>, View>,
        number: u32,
        node: u32,
    ) -> Option<OpenFile>
        requires table { seat.old.table_id ≡ self.now.table.shared.table_id }
        requires at { IsAtWork self.now.table.shared.key number seat.old.me }
        requires announced { seat.old.me.0.work ≡ Announced node }
        requires places { seat.old.me.1 ≡ [] }
        ensures table { seat.new.table_id ≡ seat.old.table_id }
        ensures withdraws { LetsChargeGo seat.old.me 3 result seat.new.me }
        ensures places { seat.new.me.1 ≡ [] }
    {
        let place = self.hold_place(number);
        let found = self.table.shared.swap::<Withdrawing>(seat, place, 0);
        if found == announced(node) {
            return None;
        }
        self.let_go(seat, node)
    }

    // Releases the file of the node, which the pass holds by its hold word, in at most three steps.
    // Returns the file if it was retired and no other pass uses it.
    #[inline(always)]
    pub(crate) fn step_down(
        &self,
        seat: &mut Seat<Option<OpenFile>, View>,
        number: u32,
        node: u32,
    ) -> Option<OpenFile>
        requires table { seat.old.table_id ≡ self.now.table.shared.table_id }
        requires at { IsAtWork self.now.table.shared.key number seat.old.me }
        requires guarded { (f : File) × (seat.old.me.0.work ≡ Guarded f node) }
        requires places { seat.old.me.1 ≡ [] }
        ensures table { seat.new.table_id ≡ seat.old.table_id }
        ensures releases { (f : File) → seat.old.me.0.work ≡ Guarded f node
            → LetsFileGo seat.old.me f 3 result seat.new.me }
        ensures places { seat.new.me.1 ≡ [] }
    {
        let place = self.hold_place(number);
        let found = self.table.shared.swap::<SteppingDown>(seat, place, 0);
        if found == announced(node) {
            return None;
        }
        self.let_go(seat, node)
    }
}
