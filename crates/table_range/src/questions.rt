//! The bits of the question word: each pass that may ask whether the range is full has one.
ghost use Rattle.std.specs.Prelude.{◌≡◌, ◌≤◌, ◌^◌, ◌↔◌, IsTrue};
ghost use Rattle.table_range.specs.Counts.{HasQuestionOf, bit_of};

/// Passes from 1 to this number may ask.
pub const MOST_ASKING: u32 = 64;

/// Returns the bit of a pass in a word with a bit for each of 64 passes.
pub fn pass_bit(pass: u32) -> u64
    requires { 1 ≤ pass }
    ensures { result ≡ 2 ^ bit_of pass }
{
    1 << ((pass - 1) % 64)
}

/// Checks whether the question word has the bit of a pass.
pub fn asks(question: u64, pass: u32) -> bool
    requires { 1 ≤ pass }
    ensures { IsTrue result ↔ HasQuestionOf question pass }
{
    question / pass_bit(pass) % 2 == 1
}
