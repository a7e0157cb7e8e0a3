//! Opening a table.
ghost use Rattle.std.specs.Prelude.{◌≡◌, ◌+◌, ◌*◌, ◌<◌, ◌≤◌, [], length, map, slice_set, All, IfOk, IfErr, vec_len, vec_capacity};
ghost use Rattle.fx_counted.specs.Words.{IsSettled, state_of, IsPrepared, MOST_SLOTS, IsGivenBack, opening_of_chains, IsIdle, new_passes, IsShellOf};
ghost use Rattle.fx_counted.specs.Words.{slot_word_of, born, first_view};
ghost use Rattle.fx_counted.specs.Firsts.{AreFirstWords};
ghost use Rattle.fx_counted.specs.Opens.{MayOpen};
ghost use Rattle.fx_counted.specs.Cuts.{seats};
ghost use Rattle.fx_counted.specs.Layout.{slot_place, words_for, homes_for};
ghost use Rattle.fx_counted.specs.Lives.{HasAllPasses};
ghost use Rattle.fx_counted.specs.Tables.{view_of, opening_of_table, IsPassOfTable};

use crate::kinds::OneHistory;
use crate::layout::{CONTROL, MOST_NUMBERS, homes_for, slot_place, words_for};
use crate::moves::BORN;
use crate::pass::CountedPass;
use crate::table::CountedTable;
use crate::view::{Start, View};
use atomic_table::{Refused, Seat, Table};
use fx_base::{NoMemory, OpenFile};
use fx_plain::PlainTable;
use fx_table::{CHAIN_NUMBERS, MAX_CHAINS, MAX_PASSES, full_in_range, move_out, put_all};
use fx_words::{control_word, slot_word};
use std::alloc::Global;
use std::snapshot::Snapshot;
use table_seats::Deal;

impl CountedTable {
    // Shares a settled table (`PlainTable::is_settled`) between `passes` passes, 1 to
    // `fx_table::MAX_PASSES`, which play `chains` chains, at most `fx_table::MAX_CHAINS`, each with
    // `numbers` file numbers, at most `fx_table::CHAIN_NUMBERS`. The file at slot `s` gets number
    // `s`, and chain `c`, from 1, the numbers from `256 + numbers * (c - 1)` on. The passes are
    // numbered from 1, in the order of the list. All memory is allocated here. Returns `NoMemory`
    // if an allocation fails; the table then comes back settled, with its files, size and range.
    pub(crate) fn open_for(
        alloc: Global,
        plain: PlainTable,
        chains: u32,
        numbers: u32,
        passes: u32,
    ) -> Result<(CountedTable, Vec<CountedPass>), (PlainTable, NoMemory)>
        requires may { MayOpen plain chains numbers passes }
        ensures opened { IfOk result (λ (t, _).
            opening_of_table t ≡ opening_of_chains plain chains numbers passes) }
        ensures ready { IfOk result (λ (t, list).
            All (λ p. IsPassOfTable t p × IsIdle (view_of p)) list.items) }
        ensures count { IfOk result (λ (_, list). length list.items ≡ passes) }
        ensures new { IfOk result (λ (_, list). map view_of list.items ≡ new_passes passes) }
        ensures refused { IfErr result (λ (back, _). IsGivenBack plain back) }
    {
        let Ok(mut list) = Vec::with_capacity(alloc, passes as usize) else {
            return Err((plain, NoMemory));
        };
        let key = Start {
            plain: Snapshot::of(&plain),
            chains,
            passes,
            numbers,
        };
        let size = plain.size();
        let (range_start, range_len) = plain.range();
        match share(alloc, plain, &key) {
            Ok((table, seat, shell)) => {
                let table = CountedTable {
                    table,
                    shell,
                    chains,
                    passes,
                    numbers,
                    size,
                    range_start,
                    range_len,
                };
                table.deal(seat, &mut list);
                Ok((table, list))
            }
            Err(refused) => {
                list.destroy_empty();
                Err(refused)
            }
        }
    }

    // Hands each pass a seat of its own.
    fn deal(&self, mut seat: Seat<Option<OpenFile>, View>, list: &mut Vec<CountedPass>)
        requires seat { HasAllPasses self.now seat }
        requires list { (list.old.items ≡ []) × (self.now.passes ≤ vec_capacity list.old) }
        ensures ready { All (λ p. IsPassOfTable self.now p × IsIdle (view_of p)) list.new.items }
        ensures count { length list.new.items ≡ self.now.passes }
        ensures new { map view_of list.new.items ≡ new_passes self.now.passes }
    {
        let mut number = 1;
        while number < self.passes {
            let one = self.table.shared.split_seat::<Deal>(&mut seat);
            list.push_reserved(CountedPass::new(one));
            number += 1;
        }
        list.push_reserved(CountedPass::new(seat));
    }
}

// Creates the words and places of a shared table, whose files come from this table, and a seat with
// all passes.
fn share(
    alloc: Global,
    mut plain: PlainTable,
    key: &Start,
) -> Result<
    (
        Table<Option<OpenFile>, View, Start, OneHistory, Global>,
        Seat<Option<OpenFile>, View>,
        PlainTable,
    ),
    (PlainTable, NoMemory),
>
    requires settled { IsSettled (state_of plain) }
    requires plain { key.now.plain.value ≡ plain }
    requires inside { let st = state_of plain in
        (st.size ≤ MOST_SLOTS) × (st.range.0 + st.range.1 ≤ st.size) }
    requires chains { (key.now.chains ≤ MAX_CHAINS) × (key.now.numbers ≤ CHAIN_NUMBERS) }
    requires passes { key.now.passes ≤ MAX_PASSES }
    ensures key { IfOk result (λ (t, _, _). t.shared.key ≡ key.now) }
    ensures words { IfOk result (λ (t, _, _). t.shared.table_id.words
        ≡ words_for (state_of plain).size (key.now.numbers * key.now.chains)) }
    ensures homes { IfOk result (λ (t, _, _). t.shared.table_id.slots
        ≡ homes_for (state_of plain).size (key.now.numbers * key.now.chains)) }
    ensures seat { IfOk result (λ (t, seat, _). (seat.table_id ≡ t.shared.table_id)
        × (seat.me ≡ (first_view seats key.now, []))) }
    ensures shell { IfOk result (λ (_, _, shell). IsShellOf (state_of plain) (state_of shell)
        × IsPrepared shell) }
    ensures refused { IfErr result (λ (back, _). IsGivenBack plain back) }
{
    let numbers = key.numbers * key.chains;
    let Ok(words) = first_words(alloc, &plain, numbers) else {
        return Err((plain, NoMemory));
    };
    let count = homes_for(plain.size(), numbers);
    let Ok(homes) = move_out(alloc, &mut plain, count) else {
        return Err((plain, NoMemory));
    };
    match Table::new(alloc, words.as_slice(), homes, key) {
        Ok((table, seat)) => Ok((table, seat, plain)),
        Err(Refused { slots }) => {
            put_all(&mut plain, slots);
            Err((plain, NoMemory))
        }
    }
}

// Writes the words of a slot with a file, and of its number, which is the slot's.
fn write_slot(words: &mut Vec<u64>, slot: u32, entry: u8)
    requires slot { slot < MOST_SLOTS }
    requires inside { 17 + 8 * slot < vec_len words.old }
    ensures entry { entry < 256 }
    ensures words { words.new.items ≡ slice_set (slice_set words.old.items
        (slot_place slot) (slot_word_of slot entry)) (17 + 8 * slot) born }
{
    let place = slot_place(slot);
    words[place] = slot_word(slot, entry);
    words[place + 1] = BORN;
}

// Creates the words of a shared table with the files of this table, whose chains have `numbers`
// numbers together.
fn first_words(alloc: Global, plain: &PlainTable, numbers: u32) -> Result<Vec<u64>, NoMemory>
    requires { numbers ≤ MOST_NUMBERS }
    ensures { IfOk result (λ words. AreFirstWords (state_of plain.now) numbers words.items) }
{
    let size = plain.size();
    let mut words = vec![in alloc; 0; words_for(size, numbers)]?;
    words[CONTROL] = control_word(full_in_range(plain));
    for slot in 0..size {
        if let Some(entry) = plain.entry_at(slot) {
            write_slot(&mut words, slot, entry);
        }
    }
    Ok(words)
}
