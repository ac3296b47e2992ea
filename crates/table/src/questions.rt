//! What a table store shows.
ghost use Rattle.table.specs.Opening.{sheet_of};

use crate::slot::Slot;
use crate::table::Table;
use sheet::{Delimiter, Entry, Spacing, Stamps, Store};

impl Store for Table {
    type Stamp = u32;

    ghost sheet = { sheet_of };

    ghost site = { 0 };

    fn count(&self) -> usize {
        self.parts.count()
    }

    // Inlined, so that a question works out no more of an entry than it answers.
    #[inline(always)]
    fn entry(&self, at: usize) -> Option<Entry<'_, u32>> {
        Some(match self.slot(at)? {
            Slot::Group {
                distance,
                delimiter,
                whole,
                opening,
                closing,
            } => Entry::Group {
                distance: distance as usize,
                delimiter: Delimiter::try_from(delimiter).ok()?,
                stamps: Stamps {
                    whole,
                    opening,
                    closing,
                },
            },
            Slot::Name { place, stamp } => Entry::Name {
                text: self.parts.entries().texts().at(place),
                stamp,
            },
            Slot::Mark {
                character,
                spacing,
                stamp,
            } => Entry::Mark {
                character,
                spacing: Spacing::try_from(spacing).ok()?,
                stamp,
            },
            Slot::Literal { place, stamp } => Entry::Literal {
                text: self.parts.entries().texts().at(place),
                stamp,
            },
            Slot::End { distance } => Entry::End {
                distance: distance as usize,
            },
        })
    }

    fn call_site(&self) -> u32 {
        0
    }
}
