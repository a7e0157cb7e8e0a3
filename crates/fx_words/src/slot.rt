//! The slot word: the file at a slot, and how often it was looked up.
ghost use Rattle.std.specs.Prelude.{◌≡◌, ◌≤◌};
ghost use Rattle.fx_words.specs.Words.{slot_word_of, node_in, entry_in, takes_in, last_node};

/// Returns the word of a slot with this file and no takes. `node` is at most 16,777,214.
pub fn slot_word(node: u32, entry: u8) -> u64
    requires { node ≤ last_node }
    ensures { result ≡ slot_word_of node entry }
{
    ((u64::from(node) + 1) << 40) | (u64::from(entry) << 32)
}

/// Returns the number of the file that a slot word names, or `None` for an empty slot.
pub fn node_of(word: u64) -> Option<u32>
    ensures { result ≡ node_in word }
{
    match word >> 40 {
        0 => None,
        name => Some((name - 1) as u32),
    }
}

/// Returns the catalogue entry of the file that a slot word names. The entry of an empty slot has
/// no meaning.
pub fn entry_of(word: u64) -> u8
    ensures { result ≡ entry_in word }
{
    ((word >> 32) & 0xff) as u8
}

/// Returns the number of look-ups of the slot since the word was put in place.
pub fn takes_of(word: u64) -> u32
    ensures { result ≡ takes_in word }
{
    (word & 0xffff_ffff) as u32
}
