//! Closing a table.
ghost use Rattle.std.specs.Prelude.{◌≡◌, ◌++◌};
ghost use Rattle.fx_counted.specs.Words.{length, map, reverse, All, ClosesTable, IsIdle};
ghost use Rattle.fx_counted.specs.Lives.{IsIdleSeatOf, logs_in, AllAreIdle, Leaves};
ghost use Rattle.fx_counted.specs.Tables.{view_of, opening_of_table, IsPassOfTable};

use crate::layout::{home_place, slot_place};
use crate::pass::CountedPass;
use crate::table::CountedTable;
use crate::view::View;
use atomic_table::Seat;
use fx_base::OpenFile;
use fx_plain::PlainTable;
use fx_words::node_of;
use table_seats::{Gather, free_empty, take_home};

impl CountedTable {
    /// Turns the table back into a table of one thread, after all its passes have come back, idle
    /// (`is_idle`): as many as `open` returned, in any order. It allocates nothing, so it can't run
    /// out of memory.
    pub fn close(self, mut passes: Vec<CountedPass>) -> PlainTable
        requires all { length passes.items ≡ (opening_of_table self).passes }
        requires ready { All (λ p. IsPassOfTable self p × IsIdle (view_of p)) passes.items }
        ensures { ClosesTable (opening_of_table self) (map view_of passes.items) result }
    {
        let Some(first) = passes.pop() else {
            unreachable!()
        };
        let seat = self.gather(first.into_seat(), passes);
        self.finish(seat)
    }

    // Joins all passes in one seat.
    fn gather(
        &self,
        mut seat: Seat<Option<OpenFile>, View>,
        mut passes: Vec<CountedPass>,
    ) -> Seat<Option<OpenFile>, View>
        requires seat { IsIdleSeatOf self.now seat }
        requires passes { All (λ p. IsIdleSeatOf self.now p.seat) passes.items }
        ensures seat { IsIdleSeatOf self.now result }
        ensures logs { result.me.0.logs ≡ seat.me.0.logs ++ logs_in (reverse passes.items) }
    {
        while let Some(pass) = passes.pop() {
            let other = pass.into_seat();
            self.table.shared.join_seat::<Gather>(&mut seat, other);
        }
        passes.destroy_empty();
        seat
    }

    // Takes the files out of their places and into the table of one thread, when all passes are in
    // one seat.
    fn finish(self, seat: Seat<Option<OpenFile>, View>) -> PlainTable
        requires fits { seat.table_id ≡ self.table.shared.table_id }
        requires idle { AllAreIdle self.table.shared.key seat.id seat.me.0 }
        ensures { Leaves self.table.shared.key seat.id seat.me.0 result }
    {
        let CountedTable {
            table,
            mut shell,
            chains: _,
            passes: _,
            numbers: _,
            size,
            range_start: _,
            range_len: _,
        } = self;
        let mut closed = table.close_with(seat);
        for slot in 0..size {
            if let Some(number) = node_of(closed.word(slot_place(slot))) {
                if let Some(file) = take_home(&mut closed, home_place(size, number)) {
                    shell.put_back(slot, file);
                }
            }
        }
        free_empty(closed);
        shell
    }
}
