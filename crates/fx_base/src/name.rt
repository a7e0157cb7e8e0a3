//! Names of catalogue entries (a kernel's file names may be longer and have other bytes).
ghost use Rattle.std.specs.Prelude.{◌≡◌};
ghost use Rattle.std.specs.List.{list_all};
ghost use Rattle.fx_base.specs.Name.{name_byte, is_name};

/// The greatest number of bytes in a name.
pub const LONGEST_NAME: usize = 32;

/// Checks whether the bytes are a name: 1 to [`LONGEST_NAME`] of them, each an ASCII letter, a
/// digit, `.`, `_` or `-`.
pub fn is_name(bytes: &[u8]) -> bool
    ensures { result ≡ is_name bytes.now }
{
    !bytes.is_empty() && bytes.len() <= LONGEST_NAME && has_name_bytes(bytes)
}

fn has_name_bytes(bytes: &[u8]) -> bool
    ensures { result ≡ list_all name_byte bytes.now }
{
    bytes.iter().all(|b| is_name_byte(*b))
}

fn is_name_byte(b: u8) -> bool
    ensures { result ≡ name_byte b }
{
    matches!(b, b'a'..=b'z' | b'A'..=b'Z' | b'0'..=b'9' | b'.' | b'_' | b'-')
}
