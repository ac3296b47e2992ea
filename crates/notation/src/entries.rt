//! The entries of a table.
ghost use Rattle.std.specs.Prelude.{◌≡◌, ◌++◌, Some, OnOk};
ghost use Rattle.notation.specs.Entries.{slot_of, place_text, slot_text, ReadsBack};

use crate::fields::{marked, placed};
use crate::numerals::numbers_in;
use crate::parts::split_first_by;
use std::alloc::{AllocError, Global};
use std::fmt;
use table::{Slot, TextPlace};

/// The entry that a word writes: a letter for its kind, and its numbers behind colons.
pub fn slot(word: &[u8]) -> Option<Slot>
    ensures { result ≡ slot_of word.now }
{
    let (kind, fields) = split_first_by(word, b':');
    match kind {
        b"G" => {
            let [distance, delimiter, whole, opening, closing] = numbers_in::<5, _>(fields)?;
            Some(Slot::Group {
                distance,
                delimiter,
                whole,
                opening,
                closing,
            })
        }
        b"N" => {
            let (place, stamp) = placed(fields)?;
            Some(Slot::Name { place, stamp })
        }
        b"M" => {
            let (character, spacing, stamp) = marked(fields)?;
            Some(Slot::Mark {
                character,
                spacing,
                stamp,
            })
        }
        b"L" => {
            let (place, stamp) = placed(fields)?;
            Some(Slot::Literal { place, stamp })
        }
        b"E" => {
            let [distance] = numbers_in::<1, _>(fields)?;
            Some(Slot::End { distance })
        }
        _ => None,
    }
}

/// The place of a text, as its three numbers between colons.
#[derive(Clone, Copy)]
struct WrittenPlace(TextPlace);

impl fmt::Display for WrittenPlace {
    ghost output = { λ w. Some (place_text w.0) };

    fn fmt<W: fmt::Write>(&self, f: &mut fmt::Formatter<W>) -> fmt::Result {
        let TextPlace {
            text,
            offset,
            length,
        } = self.0;
        write!(f, "{text}:{offset}:{length}")
    }
}

/// An entry, written as `slot` reads it.
#[derive(Clone, Copy)]
pub(crate) struct Written(pub(crate) Slot);

impl fmt::Display for Written {
    ghost output = { λ w. Some (slot_text w.0) };

    fn fmt<W: fmt::Write>(&self, f: &mut fmt::Formatter<W>) -> fmt::Result {
        match self.0 {
            Slot::Group {
                distance,
                delimiter,
                whole,
                opening,
                closing,
            } => write!(f, "G:{distance}:{delimiter}:{whole}:{opening}:{closing}"),
            Slot::Name { place, stamp } => write!(f, "N:{}:{stamp}", WrittenPlace(place)),
            Slot::Mark {
                character,
                spacing,
                stamp,
            } => write!(f, "M:{}:{spacing}:{stamp}", character as u32),
            Slot::Literal { place, stamp } => write!(f, "L:{}:{stamp}", WrittenPlace(place)),
            Slot::End { distance } => write!(f, "E:{distance}"),
        }
    }
}

/// Writes an entry behind other text. `slot` reads the same entry back.
pub fn write_slot(heap: Global, slot: Slot, out: &mut Vec<u8>) -> Result<(), AllocError>
    ensures reads_back { ReadsBack slot }
    ensures writes { OnOk result (out.new.items ≡ out.old.items ++ slot_text slot) }
{
    let entry = Written(slot);
    let text = format!(in heap; "{entry}")?;
    out.extend_from_slice(text.as_bytes())
}
