//! The entries of a table in a line.
ghost use Rattle.std.specs.Prelude.{◌≡◌, ◌++◌, vec_items, OnOk};
ghost use Rattle.lines.specs.Beginnings.{slots_of, entries_text, more_text};
ghost use Rattle.case_text.specs.Faults.{Gives};

use bstr::Split;
use case_text::LineFault;
use notation::{TextParts, slot, write_slot};
use std::alloc::{AllocError, Global};
use table::Slot;

/// The entries that words write, one each, where the library's `Split` made the words.
pub fn entries(heap: Global, words: Split<'_, '_>) -> Result<Vec<Slot>, LineFault>
    ensures { Gives vec_items (slots_of words.entry) result }
{
    entries_in(heap, words)
}

/// The entries that words write, one each.
pub fn entries_in<'a, P: TextParts<'a>>(heap: Global, words: P) -> Result<Vec<Slot>, LineFault>
    ensures { Gives vec_items (slots_of (P.left words)) result }
{
    let mut words = words;
    let mut entries = Vec::new(heap);
    while let Some(word) = words.next_part() {
        let entry = slot(word).ok_or(LineFault::Unknown)?;
        entries.push(entry)?;
    }
    Ok(entries)
}

/// Writes entries behind other text, with single blanks between them; `none` if there are none.
pub fn write_entries(heap: Global, entries: &[Slot], out: &mut Vec<u8>) -> Result<(), AllocError>
    ensures { OnOk result (out.new.items ≡ out.old.items ++ entries_text entries.now) }
{
    match entries {
        [] => out.extend_from_slice(b"none"),
        [first, others @ ..] => {
            write_slot(heap, *first, out)?;
            write_more(heap, others, out)
        }
    }
}

/// Writes the entries behind the first.
fn write_more(heap: Global, entries: &[Slot], out: &mut Vec<u8>) -> Result<(), AllocError>
    ensures { OnOk result (out.new.items ≡ out.old.items ++ more_text entries.now) }
{
    for entry in entries {
        out.extend_from_slice(b" ")?;
        write_slot(heap, *entry, out)?;
    }
    Ok(())
}
