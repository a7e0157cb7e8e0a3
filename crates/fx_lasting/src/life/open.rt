//! Opening a table.
ghost use Rattle.std.specs.Prelude.{◌≡◌, ◌+◌, ◌<◌, ◌≤◌};
ghost use Rattle.fx_lasting.specs.Words.{ℕ, [], length, map, All, IfOk, vec_len, vec_capacity, vacant, state_of, lasting_opening, size_of, IsIdle};
ghost use Rattle.fx_lasting.specs.Words.{range_with_len, MOST_SLOTS, MOST_NODES, MOST_PASSES, MOST_INSTALLING, STOCK_SPACING};
ghost use Rattle.fx_lasting.specs.life.Opens.{AreNamed};
ghost use Rattle.fx_lasting.specs.life.Layout.{slot_place, stock_of, stocks_back};
ghost use Rattle.fx_lasting.specs.life.Lives.{ArePasses, HasAllPasses};
ghost use Rattle.fx_lasting.specs.Passes.{empty_slots};
ghost use Rattle.fx_lasting.specs.Tables.{view_of, opening_of_table, first_passes, IsPassOfTable};

use crate::fields::empty_word;
use crate::life::layout::{
    MOST_INSTALLING, MOST_PASSES, MOST_SLOTS, STOCK_SPACING, first_node, nodes_for, slot_place,
    stock_start, words_for,
};
use crate::pass::LastingPass;
use crate::table::LastingTable;
use crate::view::{Start, View};
use atomic_table::{Seat, Table};
use fx_base::{NoMemory, OpenFile};
use std::alloc::Global;
use table_range::group_bits;
use table_seats::Deal;

impl LastingTable {
    /// Creates a table of `slots` empty slots, 1 to [`MOST_SLOTS`]. The allocation range is
    /// `range`: its first slot and its number of slots. The table has `passes` passes, 1 to
    /// [`MOST_PASSES`], idle and numbered from 1 in the order of the list. The first `installing`
    /// of them install files, 1 to [`MOST_INSTALLING`]. All memory is allocated here.
    ///
    /// # Errors
    /// `NoMemory` if an allocation fails.
    pub fn open_sparse(
        alloc: Global,
        slots: u32,
        range: (u32, u32),
        passes: u32,
        installing: u32,
    ) -> Result<(LastingTable, Vec<LastingPass>), NoMemory>
        requires slots { (1 ≤ slots) × (slots ≤ MOST_SLOTS) }
        requires range { range.0 + range.1 ≤ slots }
        requires passes { (1 ≤ passes) × (passes ≤ MOST_PASSES) }
        requires installing { (1 ≤ installing) × (installing ≤ MOST_INSTALLING) }
        requires of_all { installing ≤ passes }
        ensures opened { IfOk result (λ (t, _).
            opening_of_table t ≡ lasting_opening (empty_slots slots range) passes) }
        ensures empty { state_of (empty_slots slots range)
            ≡ record (vacant slots) { range = range } }
        ensures size { IfOk result (λ (t, _). size_of (opening_of_table t) ≡ slots) }
        ensures ready { IfOk result (λ (t, list).
            All (λ p. IsPassOfTable t p × IsIdle (view_of p)) list.items) }
        ensures count { IfOk result (λ (_, list). length list.items ≡ passes) }
        ensures new { IfOk result (λ (_, list).
            map view_of list.items ≡ first_passes installing passes) }
    {
        let stocks = first_stocks(alloc, slots, passes, installing)?;
        let mut list = Vec::with_capacity(alloc, passes as usize)?;
        let started = LastingTable::start_sparse(alloc, slots, range, passes, installing);
        let Ok((table, seat)) = started else {
            list.destroy_empty();
            return Err(NoMemory);
        };
        table.deal(seat, &mut list, stocks);
        Ok((table, list))
    }

    // Creates the shared table with empty slots, and a seat with all passes.
    fn start_sparse(
        alloc: Global,
        size: u32,
        range: (u32, u32),
        passes: u32,
        installing: u32,
    ) -> Result<(LastingTable, Seat<Option<OpenFile>, View>), NoMemory>
        requires size { size ≤ MOST_SLOTS }
        requires range { range.0 + range.1 ≤ size }
        requires passes { ArePasses installing passes }
        ensures opened { IfOk result (λ (t, _).
            opening_of_table t ≡ lasting_opening (empty_slots size range) passes) }
        ensures installing { IfOk result (λ (t, _). t.table.shared.key.installing ≡ installing) }
        ensures seat { IfOk result (λ (t, seat). HasAllPasses t seat) }
    {
        let (range_start, range_len) = range;
        let key = Start {
            size,
            range_start,
            range_len,
            passes,
            installing,
        };
        let nodes = nodes_for(size, passes, installing);
        let mut words = vec![in alloc; 0; words_for(size, passes, nodes)]?;
        name_slots(&mut words, size);
        let (table, seat) = Table::vacant(alloc, words.as_slice(), nodes as usize, &key)?;
        let table = LastingTable {
            table,
            passes,
            installing,
            size,
            range_start,
            range_len,
            before_holds: first_node(size, 0) - 8,
            first_node: first_node(size, passes),
            group_bits: group_bits(range_len),
        };
        Ok((table, seat))
    }

    // Hands each pass a seat and a stock of its own.
    fn deal(
        &self,
        mut seat: Seat<Option<OpenFile>, View>,
        list: &mut Vec<LastingPass>,
        mut stocks: Vec<Vec<u32>>,
    )
        requires seat { HasAllPasses self.now seat }
        requires stocks { map (λ stock. stock.items) stocks.items
            ≡ stocks_back self.now.size self.now.passes self.now.installing 1 self.now.passes }
        requires list { (list.old.items ≡ []) × (self.now.passes ≤ vec_capacity list.old) }
        ensures ready { All (λ p. IsPassOfTable self.now p × IsIdle (view_of p)) list.new.items }
        ensures count { length list.new.items ≡ self.now.passes }
        ensures new { map view_of list.new.items
            ≡ first_passes self.now.table.shared.key.installing self.now.passes }
    {
        let mut number = 1;
        while number < self.passes {
            let one = self.table.shared.split_seat::<Deal>(&mut seat);
            let Some(stock) = stocks.pop() else {
                unreachable!()
            };
            list.push_reserved(LastingPass::new(one, number, stock));
            number += 1;
        }
        let Some(stock) = stocks.pop() else {
            unreachable!()
        };
        list.push_reserved(LastingPass::new(seat, number, stock));
    }
}

// Creates the first stock of a pass.
fn first_stock(
    alloc: Global,
    size: u32,
    passes: u32,
    installing: u32,
    pass: u32,
) -> Result<Vec<u32>, NoMemory>
    requires size { size ≤ MOST_SLOTS }
    requires passes { (1 ≤ pass) × (pass ≤ passes) × (passes ≤ MOST_PASSES) }
    requires installing { installing ≤ MOST_INSTALLING }
    ensures stock { IfOk result (λ stock. stock.items ≡ stock_of size passes installing pass) }
    ensures apart { IfOk result (λ stock.
        length stock.items + STOCK_SPACING ≤ vec_capacity stock) }
{
    if installing < pass {
        return numbers_from(alloc, 0, 0);
    }
    numbers_from(alloc, stock_start(size, passes, pass), passes)
}

// Creates a list of `len` numbers, from `first` on, in memory that no other list comes near.
fn numbers_from(alloc: Global, first: u32, len: u32) -> Result<Vec<u32>, NoMemory>
    requires { first + len ≤ MOST_NODES }
    ensures numbers { IfOk result (λ list. list.items ≡ range_with_len first len) }
    ensures apart { IfOk result (λ list.
        length list.items + STOCK_SPACING ≤ vec_capacity list) }
{
    let mut list = Vec::with_capacity(alloc, (len + STOCK_SPACING) as usize)?;
    for number in first..first + len {
        list.push_reserved(number);
    }
    Ok(list)
}

// Creates the first stocks of all passes, the last one's first.
fn first_stocks(
    alloc: Global,
    size: u32,
    passes: u32,
    installing: u32,
) -> Result<Vec<Vec<u32>>, NoMemory>
    requires size { size ≤ MOST_SLOTS }
    requires passes { passes ≤ MOST_PASSES }
    requires installing { installing ≤ MOST_INSTALLING }
    ensures { IfOk result (λ stocks. map (λ stock. stock.items) stocks.items
        ≡ stocks_back size passes installing 1 passes) }
{
    let mut stocks = Vec::with_capacity(alloc, passes as usize)?;
    let mut pass = passes;
    while 0 < pass {
        stocks.push_reserved(first_stock(alloc, size, passes, installing, pass)?);
        pass -= 1;
    }
    Ok(stocks)
}

// Writes the words of empty slots: each names the slot's node.
fn name_slots(words: &mut Vec<u64>, size: u32)
    requires size { size ≤ MOST_SLOTS }
    requires inside { (slot : ℕ) → slot < size → slot_place slot < vec_len words.old }
    ensures { AreNamed size words.old.items words.new.items }
{
    for slot in 0..size {
        words[slot_place(slot)] = empty_word(slot);
    }
}
