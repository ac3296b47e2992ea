//! What a packed store shows.
ghost use Rattle.packed.specs.Format.{call_site_stamp};
ghost use Rattle.packed.specs.Opening.{sheet_of};

use crate::packed::Packed;
use crate::slot::Slot;
use crate::stamp::{Side, Stamp};
use sheet::{Entry, Spacing, Stamps, Store};

impl Store for Packed {
    type Stamp = Stamp;

    ghost sheet = { sheet_of };

    ghost site = { call_site_stamp };

    fn count(&self) -> usize {
        self.framed.count()
    }

    // Inlined, so that a question works out no more of an entry than it answers.
    #[inline(always)]
    fn entry(&self, at: usize) -> Option<Entry<'_, Stamp>> {
        let slot = self.slot(at)?;
        let here = Stamp {
            place: at as u16,
            side: Side::Start,
        };
        Some(match slot {
            Slot::Group(delimiter, distance) => Entry::Group {
                distance: usize::from(distance),
                delimiter,
                stamps: Stamps {
                    closing: Stamp {
                        side: Side::Close,
                        ..here
                    },
                    ..Stamps::alike(here)
                },
            },
            Slot::Name(pair) => Entry::Name {
                text: self.framed.entries().text(pair),
                stamp: here,
            },
            Slot::Literal(pair) => Entry::Literal {
                text: self.framed.entries().text(pair),
                stamp: here,
            },
            Slot::Mark(character, spacing) => Entry::Mark {
                character: char::from(character),
                spacing: Spacing::try_from(u32::from(spacing)).ok()?,
                stamp: here,
            },
            Slot::End(distance) => Entry::End {
                distance: usize::from(distance),
            },
        })
    }

    fn call_site(&self) -> Stamp {
        Stamp {
            place: u16::MAX,
            side: Side::Start,
        }
    }
}
