//! The table.
ghost use Rattle.std.specs.Prelude.{◌≡◌, ◌≤◌, ◌<◌, ◌+◌, ◌^◌};
ghost use Rattle.fx_lasting.specs.Words.{group_size, MOST_SLOTS, MOST_PASSES, MOST_INSTALLING, MOST_NODES};
ghost use Rattle.fx_lasting.specs.life.Layout.{words_for, hold_place, node_place, tag_place, number_place};
ghost use Rattle.fx_lasting.specs.Passes.{slots_of, range_at_start, nodes_of};

use crate::kinds::OneHistory;
use crate::life::layout::node_words;
use crate::view::{Start, View};
use atomic_table::Table;
use fx_base::OpenFile;
use std::alloc::Global;

/// A file table that threads share without a lock, and that never has to be closed: look-ups and
/// installations have no limit. A file that is looked up seldom is counted at its slot; one that is
/// looked up often is announced in a word of the pass's own, so that passes that read one slot
/// don't disturb each other. No call waits. It must be consumed: the compiler rejects a program
/// that drops one without [`LastingTable::close`] or [`LastingTable::abandon`].
pub struct LastingTable {
    pub(crate) table: Table<Option<OpenFile>, View, Start, OneHistory, Global>,
    pub(crate) passes: u32,
    pub(crate) installing: u32,
    pub(crate) size: u32,
    pub(crate) range_start: u32,
    pub(crate) range_len: u32,
    // The place of the line before the first hold word.
    pub(crate) before_holds: u32,
    // The place of the first node's word.
    pub(crate) first_node: u32,
    // The exponent of the size of a group, which is a power of 2.
    pub(crate) group_bits: u32,
    pub ghost words: { table.shared.table_id.words
        ≡ words_for size passes (nodes_of table.shared.key) },
    pub ghost homes: { table.shared.table_id.slots ≡ nodes_of table.shared.key },
    pub ghost key: { (passes ≡ table.shared.key.passes)
        × (installing ≡ table.shared.key.installing) },
    pub ghost same_size: { size ≡ slots_of table.shared.key },
    pub ghost same_range: { (range_start, range_len) ≡ range_at_start table.shared.key },
    pub ghost places: { (before_holds ≡ hold_place size 0)
        × (first_node ≡ node_place size passes 0) },
    pub ghost groups: { (group_size range_len ≡ 2 ^ group_bits) × (group_bits < 32) },
    pub ghost few_slots: { size ≤ MOST_SLOTS },
    pub ghost range_inside: { range_start + range_len ≤ size },
    pub ghost bounds: { (1 ≤ passes) × (passes ≤ MOST_PASSES) × (1 ≤ installing)
        × (installing ≤ MOST_INSTALLING) × (installing ≤ passes) },
}

// These find a place by the first node's: after an atomic step, which may change any word, it is
// loaded again, and the rest of the sum would be added up again.
impl LastingTable {
    // Returns the place of a pass's hold word.
    #[inline(always)]
    pub(crate) fn hold_place(&self, pass: u32) -> usize
        requires { pass ≤ self.now.passes }
        ensures { result ≡ hold_place self.now.size pass }
    {
        (self.before_holds + 8 * pass) as usize
    }

    // Returns the place of a node's word.
    #[inline(always)]
    pub(crate) fn node_place(&self, node: u32) -> usize
        requires { node < MOST_NODES }
        ensures { result ≡ node_place self.now.size self.now.passes node }
    {
        (self.first_node + node_words(node)) as usize
    }

    // Returns the place of the tag of a node's file.
    #[inline(always)]
    pub(crate) fn tag_place(&self, node: u32) -> usize
        requires { node < MOST_NODES }
        ensures { result ≡ tag_place self.now.size self.now.passes node }
    {
        self.node_place(node) + 1
    }

    // Returns the place of the number of a node's file.
    #[inline(always)]
    pub(crate) fn number_place(&self, node: u32) -> usize
        requires { node < MOST_NODES }
        ensures { result ≡ number_place self.now.size self.now.passes node }
    {
        self.node_place(node) + 2
    }
}
