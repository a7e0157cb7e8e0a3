//! The places of a table's words and open files. The words that a pass changes at one call are on a
//! cache line that no other slot's calls change: a slot's word is next to the node word of the
//! number that the slot has at first, and nothing else is on that line.
ghost use Rattle.std.specs.Prelude.{◌≡◌, ◌<◌, ◌≤◌};
ghost use Rattle.fx_counted.specs.Words.{MOST_SLOTS};
ghost use Rattle.fx_counted.specs.Layout.{slot_place, node_place, words_for, home_place, homes_for, HasNode};

use fx_table::{CHAIN_NUMBERS, FIRST_CHAIN_NUMBER, MAX_CHAINS};

/// The greatest number of file numbers of all chains of a table together.
pub const MOST_NUMBERS: u32 = CHAIN_NUMBERS * MAX_CHAINS;

/// The place of the control word.
pub const CONTROL: usize = 0;

/// The place of the draw word.
pub const DRAW: usize = 8;

/// Returns the number of words of a table of `size` slots, at most [`fx_plain::MOST_SLOTS`], whose
/// chains have `numbers` numbers together, at most [`MOST_NUMBERS`].
pub fn words_for(size: u32, numbers: u32) -> usize
    requires size { size ≤ MOST_SLOTS }
    requires numbers { numbers ≤ MOST_NUMBERS }
    ensures { result ≡ words_for size numbers }
{
    (16 + 8 * size + numbers) as usize
}

/// Returns the number of places for open files of such a table.
pub fn homes_for(size: u32, numbers: u32) -> usize
    requires size { size ≤ MOST_SLOTS }
    requires numbers { numbers ≤ MOST_NUMBERS }
    ensures { result ≡ homes_for size numbers }
{
    (size + numbers) as usize
}

/// Returns the place of a slot's word.
pub fn slot_place(slot: u32) -> usize
    requires { slot < MOST_SLOTS }
    ensures { result ≡ slot_place slot }
{
    16 + 8 * slot as usize
}

/// Returns the place of a number's node word. Requires that the number is that of a slot or of a
/// chain.
pub fn node_place(size: u32, number: u32) -> usize
    requires size { size ≤ MOST_SLOTS }
    requires number { HasNode size MOST_NUMBERS number }
    ensures { result ≡ node_place size number }
{
    if number < size {
        17 + 8 * number as usize
    } else {
        (16 + 8 * size + (number - FIRST_CHAIN_NUMBER)) as usize
    }
}

/// Returns the place of a number's open file. Requires that the number is that of a slot or of a
/// chain.
pub fn home_place(size: u32, number: u32) -> usize
    requires size { size ≤ MOST_SLOTS }
    requires number { HasNode size MOST_NUMBERS number }
    ensures { result ≡ home_place size number }
{
    if number < size {
        number as usize
    } else {
        (size + (number - FIRST_CHAIN_NUMBER)) as usize
    }
}
