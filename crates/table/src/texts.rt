//! The two texts of a table, and the places in them.
ghost use Rattle.std.specs.Prelude.{◌≡◌};
ghost use Rattle.table.specs.Texts.{counted as counted_bytes, text_numbered, good_place, text_at};

use crate::slot::TextPlace;

/// Only this many bytes of a text count.
pub const LONGEST: usize = 65535;

/// The sheet text and the template text.
// Clauses name the two lists and not a `Texts`: the laws of filling go over lists that no `Texts` holds.
#[derive(Clone, Copy)]
pub struct Texts<'a> {
    pub sheet: &'a [u8],
    pub template: &'a [u8],
}

/// The bytes of a text that count.
fn counted(text: &[u8]) -> &[u8]
    ensures { result.now ≡ counted_bytes text.now }
{
    &text[..LONGEST.min(text.len())]
}

impl<'a> Texts<'a> {
    /// The text of a number.
    // Not an enum: the number is as somebody wrote it, and a place in any text above 1 has no bytes.
    fn numbered(self, number: u32) -> &'a [u8]
        ensures { result.now ≡ text_numbered self.entry.sheet.now self.entry.template.now number }
    {
        match number {
            0 => counted(self.sheet),
            1 => counted(self.template),
            _ => &[],
        }
    }

    /// Whether a text place is good: 1 to 255 bytes that end within their text.
    pub fn is_good(self, place: TextPlace) -> bool
        ensures { result ≡ good_place self.entry.sheet.now self.entry.template.now place }
    {
        let end = place.offset as usize + place.length as usize;
        (1..=255).contains(&place.length) && end <= self.numbered(place.text).len()
    }

    /// The bytes at a text place; none at a place that is not good.
    pub fn at(self, place: TextPlace) -> &'a [u8]
        ensures { result.now ≡ text_at self.entry.sheet.now self.entry.template.now place }
    {
        if !self.is_good(place) {
            return &[];
        }
        let from = place.offset as usize;
        let end = from + place.length as usize;
        &self.numbered(place.text)[from..end]
    }
}
