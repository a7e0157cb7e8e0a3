//! The parts of words that `fx_words` doesn't have: whether a slot is full, its heat and takes, and
//! what a retirement subtracts.
ghost use Rattle.std.specs.Prelude.{◌≡◌, ◌≢◌, ◌+◌, ◌-◌, ◌<◌, ◌≤◌, ◌^◌, ◌↔◌, None};
ghost use Rattle.fx_lasting.specs.Words.{IsTrue, true, false, last_node, name_in};
ghost use Rattle.fx_lasting.specs.Fields.{full_name_in, file_node_in, file_word_of, empty_word_of, without_file, count_in, IsHot, announced, charge};
ghost use Rattle.fx_lasting.specs.Fields.{retirement_amount, cold_takes, MayCarry};

use fx_words::{node_of, slot_word};

// The amount that a pass adds to a slot's word to heat the slot: its file is looked up by hold
// words then.
pub(crate) const HEAT: u64 = 1 << 21;

// The bit of a slot's word that says that the slot is full.
const FULL: u64 = 1 << 20;

// The bits of a slot's word that name a node.
pub(crate) const NAME: u64 = 0xffff_ff00_0000_0000;

// The word of a node before anybody has let its file go.
pub(crate) const BORN: u64 = (1 << 32) + 1;

// The most takes that the word of a kept node has lost.
pub(crate) const MOST_CARRIED: u64 = 8;

// Checks whether the word of a node has lost few takes: its pass may keep it then.
#[inline(always)]
pub(crate) fn may_carry(word: u64) -> bool
    ensures { IsTrue result ↔ MayCarry word }
{
    word <= BORN && BORN - word <= MOST_CARRIED
}

// Returns the number of takes from which on a slot becomes hot, in a table with this number of
// passes.
pub(crate) fn cold_takes(passes: u32) -> u32
    ensures { result ≡ cold_takes passes }
{
    if passes == 1 { 1 << 19 } else { 16 }
}

// Returns the word of a slot with a file of this entry on this node.
pub(crate) fn file_word(node: u32, entry: u8) -> u64
    requires { node ≤ last_node }
    ensures { result ≡ file_word_of node entry }
{
    slot_word(node, entry) + FULL
}

// Returns the word of an empty slot that names this node.
pub(crate) fn empty_word(node: u32) -> u64
    requires { node ≤ last_node }
    ensures { result ≡ empty_word_of node }
{
    (u64::from(node) + 1) << 40
}

// Returns what a removal leaves of a slot's word.
pub(crate) fn without_file(word: u64) -> u64
    ensures { result ≡ without_file word }
{
    word / (1 << 40) * (1 << 40)
}

// Checks whether the word of a slot says that the slot is full.
pub(crate) fn is_full(word: u64) -> bool
    ensures empty { result ≡ false → file_node_in word ≡ None }
    ensures full { result ≡ true → name_in word ≢ 0 → full_name_in word ≢ 0 }
{
    word / FULL % 2 == 1
}

// Returns the node of the file at the slot with this word, or `None` if the slot is empty.
pub(crate) fn file_node_of(word: u64) -> Option<u32>
    ensures { result ≡ file_node_in word }
{
    if word / FULL % 2 == 1 {
        node_of(word)
    } else {
        None
    }
}

// Returns the node that the word of a slot names, full or empty.
pub(crate) fn node_named(word: u64) -> u32
    requires { name_in word ≢ 0 }
    ensures { result ≡ name_in word - 1 }
{
    (word / (1 << 40) - 1) as u32
}

// Returns the number of takes in a slot's word.
pub(crate) fn count_of(word: u64) -> u32
    ensures { result ≡ count_in word }
{
    (word % (1 << 20)) as u32
}

// Checks whether a slot's word is hot.
pub(crate) fn is_hot(word: u64) -> bool
    ensures { IsTrue result ↔ IsHot word }
{
    0 < word / (1 << 21) % (1 << 11)
}

// Checks whether a slot is hot and its file is on the node, by the slot's word.
pub(crate) fn is_hot_at(word: u64, node: u32) -> bool
    ensures { IsTrue result ↔ ((full_name_in word ≡ node + 1) × IsHot word) }
{
    word / (1 << 40) == u64::from(node) + 1 && word / FULL % 2 == 1 && is_hot(word)
}

// Returns the hold word of a pass that announces the node.
pub(crate) fn announced(node: u32) -> u64
    ensures { result ≡ announced node }
{
    u64::from(node) + 1
}

// Returns that word once a retirement has charged it.
pub(crate) fn charged(node: u32) -> u64
    ensures { result ≡ announced node + charge }
{
    u64::from(node) + 1 + (1 << 32)
}

// Returns the amount that the retirement of a file with these takes and charges subtracts from its
// node's word.
pub(crate) fn retire_amount(takes: u32, charges: u32) -> u64
    requires { takes + charges ≤ 2 ^ 32 }
    ensures { result ≡ retirement_amount takes charges }
{
    (1 << 32) - (u64::from(takes) + u64::from(charges))
}
