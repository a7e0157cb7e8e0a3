//! The places of a table's words. A line is 8 words. The question word, each group's word, the word
//! of each of the first 4,096 slots and each pass's hold word have a line of their own. The list of
//! passes that ever looked a file up, a bit for each, has two lines. The words of the other slots
//! are side by side. The nodes' words follow from the next line on. Each node has three: its word,
//! and its label, which is the tag of its file and the number of the file's mark. The words of each
//! of the first 4,096 nodes have a line of their own, and those of each other node have half a
//! line. The table's memory begins with the third word of a line. The malloc of glibc returns a
//! large block 16 bytes after the beginning of a page, so that a line is a cache line there. It
//! aligns a small block to 16 bytes alone, and then the words of a node may be in two cache lines.
ghost use Rattle.std.specs.Prelude.{◌≡◌, ◌<◌, ◌≤◌};
ghost use Rattle.fx_lasting.specs.life.Layout.{list_place, slot_place, node_place, words_for, slot_words, slot_lines, node_words, stock_start};
ghost use Rattle.fx_lasting.specs.life.Layout.{nodes_for};

use table_range::RANGE_END;

/// The greatest number of slots of a table.
pub const MOST_SLOTS: u32 = 1_048_576;

/// The greatest number of passes of a table.
pub const MOST_PASSES: u32 = 1024;

/// The greatest number of passes of a table that install files.
pub const MOST_INSTALLING: u32 = 64;

// The greatest number of nodes of a table: one for each slot, and one for each pass in the stock of
// each pass that installs.
pub(crate) const MOST_NODES: u32 = 1_114_112;

// The entries of a stock's memory that stay unused. They take 64 bytes, so the stocks of two passes
// are never in one cache line, wherever the allocator puts them: a pass writes its stock in each
// call that installs or removes a file.
pub(crate) const STOCK_SPACING: u32 = 16;

// Returns the place of the word of the list that has the bit of a pass.
pub(crate) fn list_place(pass: u32) -> usize
    requires { (1 ≤ pass) × (pass ≤ MOST_PASSES) }
    ensures { result ≡ list_place pass }
{
    6 + (pass - 1) as usize / 64
}

// The number of slots whose words have a line of their own, and that of nodes.
const OWN_LINES: u32 = 4096;

// Returns the number of words that the first `n` slots take.
#[inline(always)]
fn slot_words(n: u32) -> u32
    requires { n ≤ MOST_SLOTS }
    ensures { result ≡ slot_words n }
{
    if n < OWN_LINES {
        8 * n
    } else {
        n + 7 * OWN_LINES
    }
}

// Returns the number of lines that the words of the first `n` slots are in.
#[inline(always)]
fn slot_lines(n: u32) -> u32
    requires { n ≤ MOST_SLOTS }
    ensures { result ≡ slot_lines n }
{
    (slot_words(n) + 7) / 8
}

// Returns the number of words that the first `n` nodes take.
#[inline(always)]
pub(crate) fn node_words(n: u32) -> u32
    requires { n ≤ MOST_NODES }
    ensures { result ≡ node_words n }
{
    if n < OWN_LINES {
        8 * n
    } else {
        4 * n + 4 * OWN_LINES
    }
}

// Returns the place of a slot's word.
pub(crate) fn slot_place(slot: u32) -> usize
    requires { slot < MOST_SLOTS }
    ensures { result ≡ slot_place slot }
{
    (RANGE_END + slot_words(slot)) as usize
}

// Returns the place of the first node's word.
pub(crate) fn first_node(size: u32, passes: u32) -> u32
    requires size { size ≤ MOST_SLOTS }
    requires passes { passes ≤ MOST_PASSES }
    ensures { result ≡ node_place size passes 0 }
{
    RANGE_END + 8 * slot_lines(size) + 8 * passes
}

// Returns the number of words of a table with `nodes` nodes.
pub(crate) fn words_for(size: u32, passes: u32, nodes: u32) -> usize
    requires size { size ≤ MOST_SLOTS }
    requires passes { passes ≤ MOST_PASSES }
    requires nodes { nodes ≤ MOST_NODES }
    ensures { result ≡ words_for size passes nodes }
{
    (RANGE_END + 8 * slot_lines(size) + 8 * passes + node_words(nodes)) as usize
}

// Returns the first node of a pass's first stock.
pub(crate) fn stock_start(size: u32, passes: u32, pass: u32) -> u32
    requires size { size ≤ MOST_SLOTS }
    requires passes { passes ≤ MOST_PASSES }
    requires pass { (1 ≤ pass) × (pass ≤ passes) }
    ensures { result ≡ stock_start size passes pass }
{
    size + (pass - 1) * passes
}

// Returns the number of nodes of a table in which `installing` passes install.
pub(crate) fn nodes_for(size: u32, passes: u32, installing: u32) -> u32
    requires size { size ≤ MOST_SLOTS }
    requires passes { passes ≤ MOST_PASSES }
    requires installing { installing ≤ MOST_INSTALLING }
    ensures nodes { result ≡ nodes_for size passes installing }
    ensures few { result ≤ MOST_NODES }
{
    size + installing * passes
}
