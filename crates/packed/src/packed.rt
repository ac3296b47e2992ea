//! The packed store: from bytes to it and back.
ghost use Rattle.std.specs.Prelude.{◌≡◌, ◌<◌, true, IsSome};

use crate::framed::Framed;
use crate::slot::Slot;
use rules::Lawful;
use sheet::Refused;

/// A packed sheet that was opened: its frame is whole and its entries are lawful.
#[derive(Drop)]
pub struct Packed {
    pub(crate) framed: Lawful<Framed>,
}

impl Packed {
    ghost use Rattle.sheet.specs.Entries.{entries, at as entry_at};
    ghost use Rattle.packed.specs.Opening.{Opens, AcceptsMeaning, bytes_of, sheet_of};
    ghost use Rattle.packed.specs.Slots.{found, spaced};

    /// Opens packed bytes: first the frame is looked at, then the rules.
    pub fn open(bytes: Vec<u8>) -> Result<Packed, Refused<Vec<u8>>>
        ensures opens { Opens bytes result }
        ensures accepts { AcceptsMeaning bytes.items result }
    {
        match Lawful::new(Framed::new(bytes)?) {
            Ok(framed) => Ok(Packed { framed }),
            Err(Refused { fault, given }) => {
                let Framed { bytes } = given;
                Err(Refused {
                    fault,
                    given: bytes,
                })
            }
        }
    }

    /// The bytes again.
    pub fn into_bytes(self) -> Vec<u8>
        ensures { result ≡ self.framed.entries.bytes }
    {
        let Packed { framed } = self;
        let Framed { bytes } = framed.into_entries();
        bytes
    }

    /// The entry at a place, as its bytes have it.
    pub(crate) fn slot(&self, at: usize) -> Option<Slot>
        ensures is { found (bytes_of self.now) at result ≡ entry_at (entries (sheet_of self.now)) at }
        ensures spacing { spaced result ≡ true }
        ensures few { IsSome result → at < 65536 }
    {
        self.framed.entries().slot(at)
    }
}
