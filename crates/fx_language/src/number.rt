//! Numbers, tags and entries, as words write them.
ghost use Rattle.std.specs.Prelude.{◌≡◌};
ghost use Rattle.fx_language.specs.declared.limits.TheConstants.{LARGEST_TAG};
ghost use Rattle.fx_language.specs.Words.{is_digit, decimal_of, number_up_to, entry_of};

use crate::limits::{LARGEST_NUMBER, LARGEST_TAG};

fn is_digit(b: u8) -> bool
    ensures { result ≡ is_digit b }
{
    matches!(b, b'0'..=b'9')
}

/// Parses a word as a number, at most `largest`: decimal digits without a leading zero.
pub fn number_up_to(largest: u64, word: &[u8]) -> Option<u64>
    ensures { result ≡ number_up_to largest word.now }
{
    if word.is_empty() || (word.len() > 1 && word[0] == b'0') {
        return None;
    }
    let mut n: u128 = 0;
    for digit in word {
        if !is_digit(*digit) {
            return None;
        }
        n = n * 10 + u128::from(*digit - b'0');
        if n > largest as u128 {
            return None;
        }
    }
    Some(n as u64)
}

// Parses a word as a number, at most 2,147,483,647.
pub fn number(word: &[u8]) -> Option<u32>
    ensures { result ≡ decimal_of word.now }
{
    Some(number_up_to(u64::from(LARGEST_NUMBER), word)? as u32)
}

// Parses a part of a word as a tag: a number, at most 18,446,744,073,709,551,615.
pub fn tag(part: &[u8]) -> Option<u64>
    ensures { result ≡ number_up_to LARGEST_TAG part.now }
{
    number_up_to(LARGEST_TAG, part)
}

// Parses a part of a word as an entry of a list: a number, or `-` and a number other than 0.
pub fn entry(part: &[u8]) -> Option<i32>
    ensures { result ≡ entry_of part.now }
{
    let [b'-', digits @ ..] = part else {
        return Some(number(part)? as i32);
    };
    match number(digits)? {
        0 => None,
        n => Some(-(n as i32)),
    }
}
