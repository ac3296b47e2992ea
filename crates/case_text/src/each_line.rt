//! The lines of a text.
ghost use Rattle.std.specs.Prelude.{◌≡◌, ◌<◌, ◌∷◌, length};
ghost use Rattle.case_text.specs.Texts.{lines};

use memchr::memchr;
use std::marker::Model;

/// The lines of a text, from the first to the last, each without its newline. A carriage return stays.
#[derive(Debug, Drop)]
pub(crate) struct Lines<'a> {
    left: &'a [u8],
}

impl<'a> Model for Lines<'a> {
    ghost use Rattle.std.specs.Prelude.{ℕ, List};
    ghost use Rattle.case_text.specs.Texts.{lines};

    ghost Value = { List (List ℕ) };

    ghost view = { λ s. lines s.left.now };
}

impl<'a> Lines<'a> {
    pub(crate) fn of(text: &'a [u8]) -> Lines<'a>
        ensures { result ≡ lines text.now }
    {
        Lines { left: text }
    }
}

impl<'a> Iterator for Lines<'a> {
    type Item = &'a [u8];

    ghost use Rattle.std.specs.Iterator.{YieldsFirstRef, item_count};

    ghost next_gives = { YieldsFirstRef (λ lines. lines) };

    ghost remaining = { item_count (λ lines. lines) };

    #[inline]
    fn next(&mut self) -> Option<&'a [u8]> {
        if self.left.is_empty() {
            return None;
        }
        let (line, rest) = first_line(self.left);
        self.left = rest;
        Some(line)
    }
}

/// The first line of a text, and what stands behind its newline. The last line may lack one.
// A blank line, which ends a case, is known by its first byte: the search took twice as long.
#[inline]
fn first_line(text: &[u8]) -> (&[u8], &[u8])
    requires { 0 < length text.now }
    ensures { lines text.now ≡ result.0.now ∷ lines result.1.now }
{
    if let [b'\n', rest @ ..] = text {
        return (&[], rest);
    }
    match memchr(b'\n', text) {
        Some(at) => (&text[..at], &text[at + 1..]),
        None => (text, &[]),
    }
}
