//! The announcement of a hot file in the pass's hold word, and the heat of a slot that had its
//! takes.
ghost use Rattle.std.specs.Prelude.{◌≡◌, ◌<◌};
ghost use Rattle.fx_lasting.specs.Words.{ℕ, [], Hot};
ghost use Rattle.fx_lasting.specs.AtWork.{IsAtWork};
ghost use Rattle.fx_lasting.specs.Ends.{Guards};
ghost use Rattle.fx_lasting.specs.Laws.{MayAnnounce};
ghost use Rattle.fx_lasting.specs.Runs.{Runs};
ghost use Rattle.fx_lasting.specs.Effects.{glance_after, IsOnList};
ghost use Rattle.fx_lasting.specs.declared.view.Glance.TheVariants.{None as Nothing};

use crate::fields::{HEAT, announced, cold_takes, count_of, is_hot_at};
use crate::kinds::{Announcing, Confirming, HeatingUp};
use crate::life::layout::slot_place;
use crate::table::LastingTable;
use crate::view::View;
use atomic_table::Seat;
use fx_base::OpenFile;
use fx_words::entry_of;

impl LastingTable {
    // Announces the node of a hot slot and looks at the slot again, in two steps, for a pass that
    // does nothing or has placed a file. Returns the file's entry if the slot still has the file;
    // the pass holds it then. Otherwise the announcement is to be withdrawn.
    #[inline(always)]
    pub(crate) fn guard(
        &self,
        seat: &mut Seat<Option<OpenFile>, View>,
        number: u32,
        slot: u32,
        node: u32,
    ) -> Option<u8>
        requires table { seat.old.table_id ≡ self.now.table.shared.table_id }
        requires at { IsAtWork self.now.table.shared.key number seat.old.me }
        requires listed { IsOnList seat.old.me }
        requires may { MayAnnounce seat.old.me.0.work }
        requires saw { seat.old.me.0.glance ≡ Hot slot node }
        requires slot { slot < self.now.size }
        ensures table { seat.new.table_id ≡ seat.old.table_id }
        ensures guards { Guards slot node seat.old.me result seat.new.me }
        ensures places { seat.new.me.1 ≡ seat.old.me.1 }
    {
        let shared = &self.table.shared;
        let hold = self.hold_place(number);
        shared.store::<Announcing>(seat, hold, announced(node));
        let word = shared.load::<Confirming>(seat, slot_place(slot));
        if is_hot_at(word, node) {
            Some(entry_of(word))
        } else {
            None
        }
    }

    // Heats the slot if the word that the pass found had its takes, in at most one step.
    pub(crate) fn heat(&self, seat: &mut Seat<Option<OpenFile>, View>, slot: u32, word: u64)
        requires table { seat.old.table_id ≡ self.now.table.shared.table_id }
        requires at { (number : ℕ) × IsAtWork self.now.table.shared.key number seat.old.me }
        requires listed { IsOnList seat.old.me }
        requires took { seat.old.me.0.glance ≡ glance_after self.now.passes slot word }
        requires slot { slot < self.now.size }
        ensures table { seat.new.table_id ≡ seat.old.table_id }
        ensures heats { Runs seat.old.me [] seat.old.me.0.work Nothing seat.old.me.0.change 1
            seat.new.me }
        ensures places { seat.new.me.1 ≡ seat.old.me.1 }
    {
        if cold_takes(self.passes) <= count_of(word) {
            let shared = &self.table.shared;
            shared.fetch_add::<HeatingUp>(seat, slot_place(slot), HEAT);
        }
    }
}
