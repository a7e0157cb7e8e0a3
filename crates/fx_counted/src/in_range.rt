//! Changes of slots in the allocation range, which the control word counts: the pass begins a
//! change before it writes the slot's word, and ends it afterwards.
ghost use Rattle.std.specs.Prelude.{◌≡◌};
ghost use Rattle.fx_counted.specs.Words.{[], no_use, Outside};
ghost use Rattle.fx_counted.specs.Changing.{IsAtWork, InRange, begun, HasToReport};
ghost use Rattle.fx_counted.specs.Goes.{Goes};

use crate::kinds::{Begin, End};
use crate::layout::CONTROL;
use crate::table::CountedTable;
use crate::view::View;
use atomic_table::Seat;
use fx_base::OpenFile;
use fx_words::{begin_amount, end_amount};

impl CountedTable {
    // Begins a change if the slot is in the range, and returns whether it is.
    pub(crate) fn begin(&self, seat: &mut Seat<Option<OpenFile>, View>, slot: u32) -> bool
        requires table { seat.old.table_id ≡ self.now.table.shared.table_id }
        requires seated { IsAtWork self.now.table.shared.key seat.old.me }
        requires change { seat.old.me.0.change ≡ Outside }
        ensures table { seat.new.table_id ≡ seat.old.table_id }
        ensures range { InRange self.now.table.shared.key slot result }
        ensures goes { Goes seat.old.me [] no_use seat.old.me.0.work (begun result) 1 seat.new.me }
        ensures places { seat.new.me.1 ≡ seat.old.me.1 }
    {
        let inside = self.range_start <= slot && slot < self.range_start + self.range_len;
        if inside {
            let shared = &self.table.shared;
            shared.fetch_add::<Begin>(seat, CONTROL, begin_amount());
        }
        inside
    }

    // Ends the change, if one was begun, and reports the difference in the number of full slots.
    pub(crate) fn end(&self, seat: &mut Seat<Option<OpenFile>, View>, began: bool, delta: i32)
        requires table { seat.old.table_id ≡ self.now.table.shared.table_id }
        requires seated { IsAtWork self.now.table.shared.key seat.old.me }
        requires change { HasToReport began delta seat.old.me.0.change }
        ensures table { seat.new.table_id ≡ seat.old.table_id }
        ensures goes { Goes seat.old.me [] no_use seat.old.me.0.work Outside 1 seat.new.me }
        ensures places { seat.new.me.1 ≡ seat.old.me.1 }
    {
        if began {
            let shared = &self.table.shared;
            shared.fetch_sub::<End>(seat, CONTROL, end_amount(delta));
        }
    }
}
