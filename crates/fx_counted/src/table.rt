//! The lock-free table.
ghost use Rattle.std.specs.Prelude.{◌≡◌, ◌≤◌, ◌+◌, ◌*◌};
ghost use Rattle.fx_counted.specs.Words.{CHAIN_NUMBERS, MAX_CHAINS, MAX_PASSES, size_of, range_of, state_of, IsPrepared, MOST_SLOTS, IsShellOf};
ghost use Rattle.fx_counted.specs.Layout.{words_for, homes_for};
ghost use Rattle.fx_counted.specs.Passes.{opening_of};

use crate::kinds::OneHistory;
use crate::view::{Start, View};
use atomic_table::Table;
use fx_base::OpenFile;
use fx_plain::PlainTable;
use std::alloc::Global;

/// A file table that threads share without a lock. A look-up is one atomic addition to the slot's
/// word, and a release one subtraction from the word of the file's number; of all calls only
/// `put_any` may wait. It must be consumed: the compiler rejects a program that drops one.
pub struct CountedTable {
    pub(crate) table: Table<Option<OpenFile>, View, Start, OneHistory, Global>,
    // The table that was opened, without its files. They go back into it at the close, which
    // therefore allocates nothing.
    pub(crate) shell: PlainTable,
    pub(crate) chains: u32,
    pub(crate) passes: u32,
    // The number of file numbers of each chain.
    pub(crate) numbers: u32,
    pub(crate) size: u32,
    pub(crate) range_start: u32,
    pub(crate) range_len: u32,
    pub ghost words: { table.shared.table_id.words ≡ words_for size (numbers * chains) },
    pub ghost homes: { table.shared.table_id.slots ≡ homes_for size (numbers * chains) },
    pub ghost key: { (chains ≡ table.shared.key.chains) × (passes ≡ table.shared.key.passes)
        × (numbers ≡ table.shared.key.numbers) },
    pub ghost same_size: { size ≡ size_of (opening_of table.shared.key) },
    pub ghost same_range: { (range_start, range_len) ≡ range_of (opening_of table.shared.key) },
    pub ghost few_slots: { size ≤ MOST_SLOTS },
    pub ghost range_inside: { range_start + range_len ≤ size },
    pub ghost emptied: { IsShellOf (state_of (opening_of table.shared.key).contents)
        (state_of shell) },
    pub ghost room: { IsPrepared shell },
    pub ghost bounds: { (chains ≤ MAX_CHAINS) × (1 ≤ passes) × (passes ≤ MAX_PASSES)
        × (numbers ≤ CHAIN_NUMBERS) },
}
