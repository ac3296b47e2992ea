//! The fields that calls and entries have alike.
ghost use Rattle.std.specs.Prelude.{◌≡◌};
ghost use Rattle.notation.specs.Entries.{character_of, placed_of, marked_of};
ghost use Rattle.notation.specs.Numerals.{numbers_in};

use crate::numerals::numbers_in;
use crate::parts::Split;
use table::TextPlace;

/// The place and the stamp of a name or a literal.
pub(crate) fn placed(fields: Split<'_>) -> Option<(TextPlace, u32)>
    ensures { result ≡ placed_of (numbers_in 4 fields.entry) }
{
    let [text, offset, length, stamp] = numbers_in::<4, _>(fields)?;
    let place = TextPlace {
        text,
        offset,
        length,
    };
    Some((place, stamp))
}

/// The character, the spacing and the stamp of a mark.
pub(crate) fn marked(fields: Split<'_>) -> Option<(char, u32, u32)>
    ensures { result ≡ marked_of (numbers_in 3 fields.entry) }
{
    let [code, spacing, stamp] = numbers_in::<3, _>(fields)?;
    Some((character(code), spacing, stamp))
}

/// The character of a code. A number that is no character's code stands for the replacement character, which is no legal
/// mark either.
fn character(code: u32) -> char
    ensures { result ≡ character_of code }
{
    char::from_u32(code).unwrap_or(char::REPLACEMENT_CHARACTER)
}
