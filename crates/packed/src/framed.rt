//! Bytes with a whole frame, and reading entries and texts from them.
ghost use Rattle.std.specs.Prelude.{◌≡◌, true, false, MatchResult};
ghost use Rattle.sheet.specs.Entries.{at as entry_at};
ghost use Rattle.sheet.specs.declared.fault.StoreFault.TheVariants.{Frame};
ghost use Rattle.packed.specs.Format.{entry_count, pair_text, listed, framed};
ghost use Rattle.packed.specs.Slots.{found};

use crate::frame::{entries, is_framed, pairs, read_word, start_of_text, word_of};
use crate::slot::Slot;
use crate::stamp::Stamp;
use rules::{Entries, Look, is_legal_text};
use sheet::{Refused, StoreFault};

/// Bytes whose frame is whole: every entry, pair and text can be read. Whether the entries are lawful is another matter.
#[derive(Drop)]
pub(crate) struct Framed {
    pub(crate) bytes: Vec<u8>,
    ghost whole: { framed bytes.items ≡ true },
}

impl Framed {
    /// The bytes, if their frame is whole.
    pub(crate) fn new(bytes: Vec<u8>) -> Result<Framed, Refused<Vec<u8>>>
        ensures { MatchResult result (λ f. f.bytes ≡ bytes) (λ e. (e.fault ≡ Frame) × (framed bytes.items ≡ false) × (e.given ≡ bytes)) }
    {
        if is_framed(bytes.as_slice()) {
            Ok(Framed { bytes })
        } else {
            Err(Refused {
                fault: StoreFault::Frame,
                given: bytes,
            })
        }
    }

    pub(crate) fn count(&self) -> usize
        ensures { result ≡ entry_count self.now.bytes.items }
    {
        usize::from(read_word(self.bytes.as_slice(), 1))
    }

    /// The entry at a place, as its three bytes say.
    pub(crate) fn slot(&self, at: usize) -> Option<Slot>
        ensures { found self.now.bytes.items at result ≡ entry_at (listed self.now.bytes.items) at }
    {
        let &[kind, low, high] = entries(self.bytes.as_slice()).get(at)?;
        Slot::of(kind, word_of(low, high))
    }

    /// The text of a pair; an empty one if there is no such pair.
    pub(crate) fn text(&self, pair: u16) -> &[u8]
        ensures { result.now ≡ pair_text self.now.bytes.items pair }
    {
        let bytes = self.bytes.as_slice();
        match pairs(bytes).get(usize::from(pair)) {
            Some(&[low, high, length]) => {
                let from = start_of_text(bytes) + usize::from(word_of(low, high));
                &bytes[from..from + usize::from(length)]
            }
            None => &[],
        }
    }
}

impl Entries for Framed {
    type Stamp = Stamp;

    ghost listed = { λ f. listed f.bytes.items };

    fn len(&self) -> usize {
        self.count()
    }

    fn look(&self, at: usize) -> Option<Look> {
        Some(match self.slot(at)? {
            Slot::Group(delimiter, distance) => Look::Group {
                delimiter: delimiter as u32,
                distance: usize::from(distance),
            },
            Slot::Name(pair) => Look::Name {
                good: is_legal_text(self.text(pair)),
            },
            Slot::Literal(pair) => Look::Literal {
                good: is_legal_text(self.text(pair)),
            },
            Slot::Mark(character, spacing) => Look::Mark {
                character: char::from(character),
                spacing: u32::from(spacing),
            },
            Slot::End(distance) => Look::End {
                distance: usize::from(distance),
            },
        })
    }
}
