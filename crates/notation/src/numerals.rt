//! Decimal numbers.
ghost use Rattle.std.specs.Prelude.{◌≡◌, ◌+◌, ◌-◌, ◌*◌, if◌then◌else◌, None};
ghost use Rattle.notation.specs.Numerals.{is_digit, fits, number_of, numbers_in};

use crate::text_parts::TextParts;
use bstr::Split;

/// The number that a text writes in decimal digits. There is none if it is empty, if a byte is no digit, or if the number
/// does not fit. Zeros may lead.
// Not `parse`, which takes a `+` in front and wants a text that is UTF-8.
pub fn number(text: &[u8]) -> Option<u32>
    ensures { result ≡ number_of text.now }
{
    if text.is_empty() {
        return None;
    }
    let mut value = 0;
    for byte in text {
        value = with_digit(value, *byte)?;
    }
    Some(value)
}

/// A number with one more digit behind it.
fn with_digit(value: u32, byte: u8) -> Option<u32>
    ensures { result ≡ (if is_digit byte then fits (10 * value + (byte - 48)) else None) }
{
    let digit = (byte as char).to_digit(10)?;
    value.checked_mul(10)?.checked_add(digit)
}

/// Exactly `N` numbers, one in each part, where the library's `Split` made the parts.
pub fn numbers<const N: usize>(parts: Split<'_, '_>) -> Option<[u32; N]>
    ensures { result ≡ numbers_in N parts.entry }
{
    numbers_in(parts)
}

/// Exactly `N` numbers, one in each part.
pub fn numbers_in<'a, const N: usize, P: TextParts<'a>>(parts: P) -> Option<[u32; N]>
    ensures { result ≡ numbers_in N (P.left parts) }
{
    let mut parts = parts;
    let mut found = [0; N];
    for place in &mut found {
        *place = number(parts.next_part()?)?;
    }
    match parts.next_part() {
        Some(_) => None,
        None => Some(found),
    }
}
