//! The table store: from entries and texts to it and back.
ghost use Rattle.std.specs.Prelude.{◌≡◌};

use crate::parts::Parts;
use crate::slot::Slot;
use rules::Lawful;
use sheet::Refused;

/// A table that was opened: its entries are lawful.
#[derive(Drop)]
pub struct Table {
    pub(crate) parts: Lawful<Parts>,
}

impl Table {
    ghost use Rattle.sheet.specs.Entries.{entries, at as entry_at};
    ghost use Rattle.table.specs.Opening.{Opens, AcceptsMeaning, parts_of, sheet_of};
    ghost use Rattle.table.specs.Slots.{found, Small};

    /// Opens entries over their two texts as a sheet.
    pub fn open(parts: Parts) -> Result<Table, Refused<Parts>>
        ensures opens { Opens parts result }
        ensures accepts { AcceptsMeaning parts result }
    {
        Ok(Table {
            parts: Lawful::new(parts)?,
        })
    }

    /// The parts again.
    pub fn into_parts(self) -> Parts
        ensures { result ≡ parts_of self }
    {
        let Table { parts } = self;
        parts.into_entries()
    }

    /// The entry at a place, as somebody wrote it.
    pub(crate) fn slot(&self, at: usize) -> Option<Slot>
        ensures is { found (parts_of self.now).sheet.items (parts_of self.now).template.items result ≡ entry_at (entries (sheet_of self.now)) at }
        ensures small { Small result }
    {
        self.parts.entries().slot(at)
    }
}
