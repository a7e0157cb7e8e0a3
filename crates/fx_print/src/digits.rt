//! Appending digits to a text: those of a number, and those of bytes in lower case hexadecimal.
ghost use Rattle.std.specs.Prelude.{◌≡◌, ◌++◌, OnOk, decimal, string_bytes};
ghost use Rattle.std.specs.Fmt.{signed_decimal};
ghost use Rattle.hex.specs.Hex.{encode_lower};

use itoa::Buffer;
use std::alloc::AllocError;
use std::str;

/// The number of bytes whose digits are appended at once.
const STRETCH: usize = 64;

/// Appends the digits of a number.
///
/// # Errors
/// `AllocError` if an allocation for the text fails.
pub fn push_number(text: &mut String, number: u64) -> Result<(), AllocError>
    ensures { OnOk result (string_bytes text.new ≡ string_bytes text.old ++ decimal number) }
{
    // Most numbers of a line have one digit.
    if number < 10 {
        text.push((b'0' + number as u8) as char)?;
        return Ok(());
    }
    let mut digits = Buffer::new();
    text.push_str(digits.format(number))
}

// Appends the digits of a number that may be negative, with its sign.
pub fn push_signed(text: &mut String, number: i64) -> Result<(), AllocError>
    ensures { OnOk result (string_bytes text.new ≡ string_bytes text.old ++ signed_decimal number) }
{
    if number < 0 {
        text.push('-')?;
    }
    push_number(text, number.unsigned_abs())
}

// Appends bytes in lower case hexadecimal.
pub fn push_hex(text: &mut String, bytes: &[u8]) -> Result<(), AllocError>
    ensures { OnOk result
        (string_bytes text.new ≡ string_bytes text.old ++ encode_lower bytes.now) }
{
    let mut room = [0u8; 2 * STRETCH];
    for stretch in bytes.chunks(STRETCH) {
        let digits = &mut room[..2 * stretch.len()];
        hex::encode_to_slice(stretch, digits).unwrap();
        let Ok(digits) = str::from_utf8(digits) else {
            unreachable!();
        };
        text.push_str(digits)?;
    }
    Ok(())
}
