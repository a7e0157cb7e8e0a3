//! The node word: the holds of a file.
ghost use Rattle.std.specs.Prelude.{◌≡◌};
ghost use Rattle.fx_words.specs.Words.{retire_amount_of};

/// Returns the amount that a file's retirement subtracts from its node word. Before it, the word is
/// 2^32 minus the number of releases; after it, the number of holds. `takes` are those of the slot
/// word that named the file last.
pub fn retire_amount(takes: u32) -> u64
    ensures { result ≡ retire_amount_of takes }
{
    (1 << 32) - u64::from(takes)
}
