//! The control word: how many slots of the allocation range are full, and how many passes are in a
//! change.
ghost use Rattle.std.specs.Prelude.{◌≡◌, ◌≤◌, ◌↔◌, pos, negsuc, ◌≤ℤ◌, IsTrue};
ghost use Rattle.fx_words.specs.Words.{control_word_of, one_change, end_amount_of, full_word_of};
ghost use Rattle.fx_words.specs.Words.{most_slots};

// Keeps the sum positive: the end of a removal may be counted before the end of the installation
// that it removes.
const BIAS: u64 = 65_536;

// One more pass in a change.
const ONE_CHANGE: u64 = 1 << 32;

/// Returns the control word for `full` full slots of the allocation range, at most 256, while no
/// pass is in a change.
pub fn control_word(full: u32) -> u64
    requires { full ≤ most_slots }
    ensures { result ≡ control_word_of full }
{
    BIAS + u64::from(full)
}

/// Returns the amount to add to the control word before a change of a slot in the range.
pub fn begin_amount() -> u64
    ensures { result ≡ one_change }
{
    ONE_CHANGE
}

/// Returns the amount to subtract from the control word after a change. `delta` is the change in
/// the number of full slots of the range: -1, 0 or 1.
pub fn end_amount(delta: i32) -> u64
    requires low { negsuc 0 ≤ℤ delta }
    requires high { delta ≤ℤ pos 1 }
    ensures { result ≡ end_amount_of delta }
{
    if delta < 0 {
        ONE_CHANGE + 1
    } else {
        ONE_CHANGE - delta as u64
    }
}

/// Checks whether the word says that all `len` slots of the range are full: exactly one pass is in
/// a change, the one that reads the word, and `len` full slots are counted.
pub fn says_full(word: u64, len: u32) -> bool
    ensures { IsTrue result ↔ (word ≡ full_word_of len) }
{
    word == ONE_CHANGE + BIAS + u64::from(len)
}
