//! Opening and closing a table.
ghost use Rattle.std.specs.Prelude.{◌≡◌, ◌≤◌, ◌∷◌, ◌++◌, [], length, map, reverse, All, IfOk, IfErr, vec_capacity};
ghost use Rattle.fx_baton.specs.Words.{IsSettled, Contents, state_of, IsGivenBack, opening_with, IsIdle, new_passes, ClosesTable};
ghost use Rattle.fx_baton.specs.Passes.{view_of};
ghost use Rattle.fx_baton.specs.Tables.{opening_of_table, IsPassOfTable};
ghost use Rattle.fx_baton.specs.Lives.{HasPrepared, HasAllPasses, IsIdleSeatOf, logs_in, AllIsHome, Leaves};

use crate::pass::BatonPass;
use crate::table::BatonTable;
use crate::view::{Start, View};
use atomic_table::{Refused, Seat, Table};
use fx_base::NoMemory;
use fx_plain::PlainTable;
use fx_table::{MAX_CHAINS, MAX_PASSES, numbers_for};
use std::alloc::Global;
use std::snapshot::Snapshot;
use table_seats::{Deal, Gather};

// Takes the only table out of a list.
fn only_table(mut slots: Vec<PlainTable>) -> PlainTable
    requires { (x : Contents) × (slots.items ≡ x ∷ []) }
    ensures { slots.items ≡ result ∷ [] }
{
    let Some(plain) = slots.pop() else {
        unreachable!()
    };
    slots.destroy_empty();
    plain
}

// Prepares a table for files with numbers below `numbers`, and puts it into a list of its own.
fn prepared(
    alloc: Global,
    mut plain: PlainTable,
    numbers: u32,
) -> Result<Vec<PlainTable>, (PlainTable, NoMemory)>
    requires settled { IsSettled (state_of plain) }
    requires numbers { (state_of plain).size ≤ numbers }
    ensures list { IfOk result (λ list. HasPrepared plain numbers list.items) }
    ensures refused { IfErr result (λ (back, _). IsGivenBack plain back) }
{
    let Ok(mut list) = Vec::with_capacity(alloc, 1) else {
        return Err((plain, NoMemory));
    };
    let Ok(()) = plain.prepare(numbers) else {
        list.destroy_empty();
        return Err((plain, NoMemory));
    };
    list.push_reserved(plain);
    Ok(list)
}

impl BatonTable {
    // Creates the shared table, and a seat with all passes.
    pub(crate) fn start(
        alloc: Global,
        plain: PlainTable,
        chains: u32,
        passes: u32,
    ) -> Result<(BatonTable, Seat<PlainTable, View>), (PlainTable, NoMemory)>
        requires settled { IsSettled (state_of plain) }
        requires chains { chains ≤ MAX_CHAINS }
        requires passes { (1 ≤ passes) × (passes ≤ MAX_PASSES) }
        ensures opened { IfOk result
            (λ (t, _). opening_of_table t ≡ opening_with plain chains passes) }
        ensures seat { IfOk result (λ (t, seat). HasAllPasses t seat) }
        ensures refused { IfErr result (λ (back, _). IsGivenBack plain back) }
    {
        let key = Start {
            plain: Snapshot::of(&plain),
            chains,
            passes,
        };
        let size = plain.size();
        let (range_start, range_len) = plain.range();
        let list = prepared(alloc, plain, numbers_for(chains))?;
        match Table::new(alloc, &[1], list, &key) {
            Ok((table, seat)) => Ok((
                BatonTable {
                    table,
                    chains,
                    passes,
                    size,
                    range_start,
                    range_len,
                },
                seat,
            )),
            Err(Refused { slots }) => Err((only_table(slots), NoMemory)),
        }
    }

    // Hands each pass a seat of its own.
    pub(crate) fn deal(&self, mut seat: Seat<PlainTable, View>, list: &mut Vec<BatonPass>)
        requires seat { HasAllPasses self.now seat }
        requires list { (list.old.items ≡ []) × (self.now.passes ≤ vec_capacity list.old) }
        ensures ready { All (λ p. IsPassOfTable self.now p × IsIdle (view_of p)) list.new.items }
        ensures count { length list.new.items ≡ self.now.passes }
        ensures new { map view_of list.new.items ≡ new_passes self.now.passes }
    {
        let mut number = 1;
        while number < self.passes {
            let one = self.table.shared.split_seat::<Deal>(&mut seat);
            list.push_reserved(BatonPass::new(one, number, self.passes));
            number += 1;
        }
        list.push_reserved(BatonPass::new(seat, number, self.passes));
    }

    // Joins all passes in one seat.
    fn gather(
        &self,
        mut seat: Seat<PlainTable, View>,
        mut passes: Vec<BatonPass>,
    ) -> Seat<PlainTable, View>
        requires seat { IsIdleSeatOf self.now seat }
        requires passes { All (λ p. IsIdleSeatOf self.now p.seat) passes.items }
        ensures seat { IsIdleSeatOf self.now result }
        ensures logs { result.me.0.logs ≡ seat.me.0.logs ++ logs_in (reverse passes.items) }
    {
        while let Some(pass) = passes.pop() {
            let other = seat_of(pass);
            self.table.shared.join_seat::<Gather>(&mut seat, other);
        }
        passes.destroy_empty();
        seat
    }

    // Takes the table out of the shared one, when all passes are in one seat.
    fn finish(self, seat: Seat<PlainTable, View>) -> PlainTable
        requires fits { seat.table_id ≡ self.table.shared.table_id }
        requires home { AllIsHome self.table.shared.key seat.id seat.me.0 }
        ensures { Leaves self.table.shared.key seat.id seat.me.0 result }
    {
        let BatonTable {
            table,
            chains: _,
            passes: _,
            size: _,
            range_start: _,
            range_len: _,
        } = self;
        let mut closed = table.close_with(seat);
        let plain = closed.take(0);
        closed.free();
        plain
    }

    /// Turns the table back into a table of one thread, as [`fx_table::FileTable::close`] does.
    pub fn close(self, passes: Vec<BatonPass>) -> PlainTable
        requires all { length passes.items ≡ (opening_of_table self).passes }
        requires ready { All (λ p. IsPassOfTable self p × IsIdle (view_of p)) passes.items }
        ensures { ClosesTable (opening_of_table self) (map view_of passes.items) result }
    {
        let mut passes = passes;
        let Some(first) = passes.pop() else {
            unreachable!()
        };
        let seat = seat_of(first);
        let seat = self.gather(seat, passes);
        self.finish(seat)
    }
}

fn seat_of(pass: BatonPass) -> Seat<PlainTable, View>
    ensures { result ≡ pass.seat }
{
    let BatonPass {
        seat,
        number: _,
        passes: _,
        count: _,
        chain: _,
        no_chains_left: _,
        numbers_left: _,
        looks_left: _,
        idle: _,
        spacing: _,
    } = pass;
    seat
}
