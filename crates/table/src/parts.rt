//! What a table is made of.
ghost use Rattle.std.specs.Prelude.{◌≡◌};
ghost use Rattle.sheet.specs.Entries.{at as entry_at};
ghost use Rattle.table.specs.Slots.{parts_listed, found};

use crate::slot::Slot;
use crate::texts::Texts;
use rules::{Entries, Look, is_legal_text};

/// The entries of a table, and its two texts: what the sheet's writer wrote, and what the templates hold.
#[derive(Drop)]
pub struct Parts {
    pub entries: Vec<Slot>,
    pub sheet: Vec<u8>,
    pub template: Vec<u8>,
}

impl Parts {
    /// Both texts, to look into.
    pub fn texts(&self) -> Texts<'_>
        ensures sheet { result.sheet.now ≡ self.now.sheet.items }
        ensures template { result.template.now ≡ self.now.template.items }
    {
        Texts {
            sheet: self.sheet.as_slice(),
            template: self.template.as_slice(),
        }
    }

    /// The entry at a place.
    pub(crate) fn slot(&self, at: usize) -> Option<Slot>
        ensures { found self.now.sheet.items self.now.template.items result ≡ entry_at (parts_listed self.now) at }
    {
        self.entries.get(at).copied()
    }
}

impl Entries for Parts {
    type Stamp = u32;

    ghost listed = { parts_listed };

    fn len(&self) -> usize {
        self.entries.len()
    }

    fn look(&self, at: usize) -> Option<Look> {
        Some(match self.slot(at)? {
            Slot::Group {
                distance,
                delimiter,
                ..
            } => Look::Group {
                delimiter,
                distance: distance as usize,
            },
            Slot::Name { place, .. } => Look::Name {
                good: is_legal_text(self.texts().at(place)),
            },
            Slot::Mark {
                character,
                spacing,
                ..
            } => Look::Mark { character, spacing },
            Slot::Literal { place, .. } => Look::Literal {
                good: is_legal_text(self.texts().at(place)),
            },
            Slot::End { distance } => Look::End {
                distance: distance as usize,
            },
        })
    }
}
