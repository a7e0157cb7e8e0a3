//! The search for an empty slot of the allocation range.
ghost use Rattle.std.specs.Prelude.{◌≡◌, ◌<◌};
ghost use Rattle.fx_counted.specs.Words.{true, IfSome, None, Outside, Same, More};
ghost use Rattle.fx_counted.specs.Changing.{InRange};
ghost use Rattle.fx_counted.specs.Searching.{IsSearching, Tries, HasAllocated, StillPlaces, HasFoundAllFull, RoundEnds};

use crate::kinds::{Answer, Begin, Exchange, Load};
use crate::layout::{CONTROL, slot_place};
use crate::round::Round;
use crate::table::CountedTable;
use crate::view::View;
use atomic_table::Seat;
use fx_base::{Closed, OpenFile};
use fx_words::{begin_amount, node_of, says_full, slot_word};
use std::sync::Wait;
use std::thread;

impl CountedTable {
    // Tries to install the file at the slot. Returns whether the slot was empty and now has the
    // file.
    fn try_slot(
        &self,
        seat: &mut Seat<Option<OpenFile>, View>,
        number: u32,
        file: Closed,
        slot: u32,
    ) -> bool
        requires searching { IsSearching self.now number file Same seat.old }
        requires range { InRange self.now.table.shared.key slot true }
        ensures table { seat.new.table_id ≡ seat.old.table_id }
        ensures tries { Tries number file slot seat.old.me result seat.new.me }
    {
        let shared = &self.table.shared;
        let place = slot_place(slot);
        let found = shared.load::<Load>(seat, place);
        if node_of(found).is_some() {
            return false;
        }
        let word = slot_word(number, file.entry);
        shared.compare_exchange::<Exchange>(seat, place, found, word) == found
    }

    // Installs the file at the first slot of the range that is empty when the scan reaches it, and
    // returns that slot.
    fn scan(
        &self,
        seat: &mut Seat<Option<OpenFile>, View>,
        number: u32,
        file: Closed,
    ) -> Option<u32>
        requires searching { IsSearching self.now number file Same seat.old }
        ensures table { seat.new.table_id ≡ seat.old.table_id }
        ensures slot { IfSome result (λ slot. slot < self.now.size) }
        ensures found { IfSome result
            (λ slot. HasAllocated number file slot More seat.old.me seat.new.me) }
        ensures none { result ≡ None → StillPlaces number Same seat.old.me seat.new.me }
    {
        for slot in self.range_start..self.range_start + self.range_len {
            if self.try_slot(seat, number, file, slot) {
                return Some(slot);
            }
        }
        None
    }

    // Makes one round: a scan in a change. The end of the change reports the slot that was found,
    // or checks whether all slots are full.
    fn round(&self, seat: &mut Seat<Option<OpenFile>, View>, number: u32, file: Closed) -> Round
        requires searching { IsSearching self.now number file Outside seat.old }
        ensures table { seat.new.table_id ≡ seat.old.table_id }
        ensures ends { RoundEnds self.now.table.shared.key number file seat.old.me result
            seat.new.me }
    {
        let shared = &self.table.shared;
        shared.fetch_add::<Begin>(seat, CONTROL, begin_amount());
        match self.scan(seat, number, file) {
            Some(slot) => {
                self.end(seat, true, 1);
                Round::At(slot)
            }
            None => {
                let word = shared.fetch_sub::<Answer>(seat, CONTROL, begin_amount());
                if says_full(word, self.range_len) {
                    Round::AllFull
                } else {
                    Round::Again
                }
            }
        }
    }

    // Makes rounds until one has a result.
    pub(crate) fn rounds<R: Wait>(
        &self,
        rt: &R,
        seat: &mut Seat<Option<OpenFile>, View>,
        number: u32,
        file: Closed,
    ) -> Option<u32>
        requires searching { IsSearching self.now number file Outside seat.old }
        ensures table { seat.new.table_id ≡ seat.old.table_id }
        ensures slot { IfSome result (λ slot. slot < self.now.size) }
        ensures found { IfSome result
            (λ slot. HasAllocated number file slot Outside seat.old.me seat.new.me) }
        ensures full { result ≡ None → HasFoundAllFull number seat.old.me seat.new.me }
    {
        for _ in rt.forever() {
            match self.round(seat, number, file) {
                Round::At(slot) => return Some(slot),
                Round::AllFull => return None,
                Round::Again => thread::yield_now(),
            }
        }
        unreachable!()
    }
}
