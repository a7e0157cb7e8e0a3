//! Closing a table, or letting it go.
ghost use Rattle.std.specs.Prelude.{◌≡◌, ◌≤◌, ◌++◌};
ghost use Rattle.fx_lasting.specs.Words.{false, [], length, map, reverse, vec_len, vec_capacity, All, size_of, IsIdle};
ghost use Rattle.fx_lasting.specs.life.Closing.{ClosesInto};
ghost use Rattle.fx_lasting.specs.life.Lives.{IsIdleSeatOf, logs_in, AllAreIdle, Leaves};
ghost use Rattle.fx_lasting.specs.Tables.{view_of, opening_of_table, IsPassOfTable};

use crate::fields::file_node_of;
use crate::life::layout::slot_place;
use crate::pass::LastingPass;
use crate::table::LastingTable;
use crate::view::View;
use atomic_table::Seat;
use fx_base::OpenFile;
use table_seats::{Gather, free_empty, take_home};

impl LastingTable {
    /// Closes the table, after all its passes have come back, idle (`is_idle`), and returns its
    /// files, each with its slot, in order of slot. Requires as many passes as the opening
    /// returned, in any order, and an empty list that has room for a file of each slot
    /// (`Vec::capacity`, `size`). The caller allocates that list, before the opening at best, and
    /// gets it back with the files: the close allocates nothing, so it can't run out of memory.
    pub fn close(
        self,
        mut passes: Vec<LastingPass>,
        room: Vec<(u32, OpenFile)>,
    ) -> Vec<(u32, OpenFile)>
        requires all { length passes.items ≡ (opening_of_table self).passes }
        requires ready { All (λ p. IsPassOfTable self p × IsIdle (view_of p)) passes.items }
        requires empty { room.items ≡ [] }
        requires room { size_of (opening_of_table self) ≤ vec_capacity room }
        ensures closed { ClosesInto (opening_of_table self) (map view_of passes.items)
            result.items }
        ensures few { vec_len result ≤ size_of (opening_of_table self) }
    {
        self.settle_all(&mut passes);
        let Some(first) = passes.pop() else {
            unreachable!()
        };
        let seat = self.gather(first.into_seat(), passes);
        self.finish(seat, room)
    }

    // Frees the nodes that the passes keep.
    fn settle_all(&self, passes: &mut Vec<LastingPass>)
        requires ready { All (λ p. IsPassOfTable self.now p × IsIdle (view_of p)) passes.old.items }
        ensures ready { All (λ p. IsPassOfTable self.now p × IsIdle (view_of p)) passes.new.items }
        ensures unkept { All (λ p. p.keeps ≡ false) passes.new.items }
        ensures same { map view_of passes.new.items ≡ map view_of passes.old.items }
    {
        for index in 0..passes.len() {
            self.settle(&mut passes[index]);
        }
    }

    // Joins all passes in one seat.
    fn gather(
        &self,
        mut seat: Seat<Option<OpenFile>, View>,
        mut passes: Vec<LastingPass>,
    ) -> Seat<Option<OpenFile>, View>
        requires seat { IsIdleSeatOf self.now seat }
        requires passes { All (λ p. IsIdleSeatOf self.now p.seat) passes.items }
        ensures seat { IsIdleSeatOf self.now result }
        ensures logs { result.me.0.logs ≡ seat.me.0.logs ++ logs_in (reverse passes.items) }
    {
        while let Some(pass) = passes.pop() {
            let other = pass.into_seat();
            self.table.shared.join_seat::<Gather>(&mut seat, other);
        }
        passes.destroy_empty();
        seat
    }

    // Takes the files out of their places and into the list, when all passes are in one seat.
    fn finish(
        self,
        seat: Seat<Option<OpenFile>, View>,
        mut files: Vec<(u32, OpenFile)>,
    ) -> Vec<(u32, OpenFile)>
        requires fits { seat.table_id ≡ self.table.shared.table_id }
        requires idle { AllAreIdle self.table.shared.key seat.id seat.me.0 }
        requires empty { files.items ≡ [] }
        requires room { self.size ≤ vec_capacity files }
        ensures left { Leaves self.table.shared.key seat.id seat.me.0 result.items }
        ensures few { vec_len result ≤ self.size }
    {
        let LastingTable {
            table,
            passes: _,
            installing: _,
            size,
            range_start: _,
            range_len: _,
            before_holds: _,
            first_node: _,
            group_bits: _,
        } = self;
        let mut closed = table.close_with(seat);
        for slot in 0..size {
            if let Some(node) = file_node_of(closed.word(slot_place(slot))) {
                if let Some(file) = take_home(&mut closed, node as usize) {
                    files.push_reserved((slot, file));
                }
            }
        }
        free_empty(closed);
        files
    }

    /// Consumes the table without closing it, and lets its memory go. The passes need not have come
    /// back; each of them is consumed by [`LastingPass::abandon`]. The files of the table go
    /// without a close.
    pub fn abandon(self) {
        let LastingTable {
            table,
            passes: _,
            installing: _,
            size: _,
            range_start: _,
            range_len: _,
            before_holds: _,
            first_node: _,
            group_bits: _,
        } = self;
        let count = table.slot_count();
        let mut closed = table.close();
        for place in 0..count {
            if let Some(file) = closed.take(place) {
                file.discard();
            }
        }
        closed.free();
    }
}
