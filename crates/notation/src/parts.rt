//! Texts whose parts stand between separators.
ghost use Rattle.std.specs.Prelude.{◌≡◌, ◌<◌, ◌∷◌, length, slice_index, IfSome};
ghost use Rattle.std.specs.Option.{option_map};
ghost use Rattle.notation.specs.Parts.{front, behind, parts, parts_left, Cut};

use crate::text_parts::TextParts;
use bstr::ByteSlice;
use memchr::memchr;
use std::alloc::AllocError;
use std::marker::Model;

/// The parts of a text between separators, from the first to the last.
// Not the library's `Split`, whose separator is a text of any length: lines of entries and of calls took up to twice as long.
#[derive(Debug, Drop)]
pub struct Split<'a> {
    /// What no part was taken of; none if the last part was taken.
    left: Option<&'a [u8]>,
    separator: u8,
}

impl<'a> Model for Split<'a> {
    ghost use Rattle.std.specs.Prelude.{ℕ, List};
    ghost use Rattle.std.specs.Option.{option_map};
    ghost use Rattle.notation.specs.Parts.{parts_left};

    ghost Value = { List (List ℕ) };

    ghost view = { λ s. parts_left s.separator (option_map (λ x. x.now) s.left) };
}

impl<'a> Clone for Split<'a> {
    ghost use Rattle.std.specs.Prelude.{⊤};

    ghost is_clone = { λ parts copy. copy ≡ parts };

    ghost is_infallible = { λ _. ⊤ };

    fn clone(&self) -> Result<Self, AllocError> {
        Ok(Split {
            left: self.left,
            separator: self.separator,
        })
    }
}

impl<'a> Split<'a> {
    /// The parts of a text. Where there is no text there are none.
    pub fn of(text: Option<&'a [u8]>, separator: u8) -> Split<'a>
        ensures { result ≡ parts_left separator (option_map (λ x. x.now) text.entry) }
    {
        Split {
            left: text,
            separator,
        }
    }
}

impl<'a> Iterator for Split<'a> {
    type Item = &'a [u8];

    ghost use Rattle.std.specs.Iterator.{YieldsFirstRef, item_count};

    ghost next_gives = { YieldsFirstRef (λ parts. parts) };

    ghost remaining = { item_count (λ parts. parts) };

    #[inline]
    fn next(&mut self) -> Option<&'a [u8]> {
        let (part, rest) = first_part(self.left?, self.separator);
        self.left = rest;
        Some(part)
    }
}

impl<'a> TextParts<'a> for Split<'a> {
    ghost left = { λ parts. parts };

    #[inline]
    fn next_part(&mut self) -> Option<&'a [u8]> {
        self.next()
    }
}

/// What stands before the first separator of a text, and what stands behind that separator if there is one.
pub fn first_part(text: &[u8], separator: u8) -> (&[u8], Option<&[u8]>)
    ensures before { result.0.now ≡ front separator text.now }
    ensures after { option_map (λ x. x.now) result.1 ≡ behind separator text.now }
    ensures cut { Cut separator text.now result.0.now (option_map (λ x. x.now) result.1) }
    ensures shorter { IfSome result.1 (λ rest. length rest.now < length text.now) }
    ensures split { parts separator text.now ≡ result.0.now ∷ parts_left separator (option_map (λ x. x.now) result.1) }
{
    match memchr(separator, text) {
        Some(at) => (&text[..at], Some(&text[at + 1..])),
        None => (text, None),
    }
}

/// The first part of a text, which there always is, and the parts behind it.
pub fn split_first_by(text: &[u8], separator: u8) -> (&[u8], Split<'_>)
    ensures first { result.0.now ≡ front separator text.now }
    ensures others { result.1 ≡ parts_left separator (behind separator text.now) }
    ensures all { parts separator text.now ≡ result.0.now ∷ result.1 }
{
    let (first, rest) = first_part(text, separator);
    (first, Split::of(rest, separator))
}

/// The same, where the library splits.
pub fn split_first<'a, 's>(
    text: &'a [u8],
    separator: &'s [u8; 1],
) -> (&'a [u8], bstr::Split<'a, 's>)
    ensures first { result.0.now ≡ front (slice_index separator.now 0) text.now }
    ensures others { result.1 ≡ parts_left (slice_index separator.now 0) (behind (slice_index separator.now 0) text.now) }
    ensures all { parts (slice_index separator.now 0) text.now ≡ result.0.now ∷ result.1 }
{
    let mut parts = text.split_str(separator.as_slice());
    match parts.next() {
        Some(first) => (first, parts),
        None => unreachable!(),
    }
}
