//! The step that empties a slot. It puts the name of a node of the pass's stock into the slot's
//! word, and the node that the slot named into the stock, as an installation does. So the removed
//! file's node is in the stock of the pass that removed it.
ghost use Rattle.std.specs.Prelude.{◌≡◌, ◌<◌, ℕ};
ghost use Rattle.fx_lasting.specs.AtWork.{IsAtWork};
ghost use Rattle.fx_lasting.specs.Laws.{IsOffCount};
ghost use Rattle.fx_lasting.specs.Passes.{HasNoFile};
ghost use Rattle.fx_lasting.specs.slots.SwapSteps.{HasEmptied};
ghost use Rattle.fx_lasting.specs.Effects.{pass_in};

use crate::fields::{NAME, empty_word, node_named};
use crate::kinds::{Clearing, Swapping};
use crate::life::layout::slot_place;
use crate::table::LastingTable;
use crate::view::View;
use atomic_table::Seat;
use fx_base::OpenFile;

impl LastingTable {
    // Empties the slot, in one step. Returns the word that it found. The slot names
    // the node at the entry of the stock then, and the stock has the node that the slot named. A
    // pass without a stock leaves the name at the slot.
    #[inline(always)]
    pub(crate) fn empty_slot(
        &self,
        seat: &mut Seat<Option<OpenFile>, View>,
        stock: &mut Vec<u32>,
        entry: u32,
        slot: u32,
    ) -> u64
        requires table { seat.old.table_id ≡ self.now.table.shared.table_id }
        requires at { (number : ℕ) × IsAtWork self.now.table.shared.key number seat.old.me }
        requires idle { HasNoFile seat.old.me.0.work }
        requires stock { stock.old.items ≡ (pass_in seat.old.me).stock }
        requires slot { slot < self.now.size }
        requires off { IsOffCount self.now.table.shared.key slot seat.old.me.0.change }
        ensures table { seat.new.table_id ≡ seat.old.table_id }
        ensures places { seat.new.me.1 ≡ seat.old.me.1 }
        ensures emptied { HasEmptied self.now.table.shared.key slot result
            stock.new.items seat.old.me seat.new.me }
    {
        let shared = &self.table.shared;
        let place = slot_place(slot);
        let at = entry as usize;
        if stock.len() <= at {
            return shared.fetch_and::<Clearing>(seat, place, NAME);
        }
        let found = shared.swap::<Swapping>(seat, place, empty_word(stock[at]));
        stock[at] = node_named(found);
        found
    }
}
