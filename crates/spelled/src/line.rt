//! A sheet from the words of a line.
ghost use Rattle.spelled.specs.Spelling.{SpellsOut, OneSpelling};

use crate::fault::SpelledFault;
use crate::reading::{Reading, read};
use crate::whole::filled;
use bstr::Split;
use notation::TextParts;
use std::alloc::Global;
use table::Table;

/// The sheet that words spell, where the library's `Split` made the words.
pub fn spelled(heap: Global, words: Split<'_, '_>) -> Result<Table, SpelledFault>
    ensures sheet { SpellsOut words.entry result }
    ensures no_other { OneSpelling }
{
    spelled_in(heap, words)
}

/// The sheet that words spell. Without words it is the empty sheet.
pub fn spelled_in<'a, P: TextParts<'a>>(heap: Global, words: P) -> Result<Table, SpelledFault>
    ensures sheet { SpellsOut (P.left words) result }
    ensures no_other { OneSpelling }
{
    let Reading { calls, text } = read(heap, words)?;
    Ok(filled(heap, calls.as_slice(), text, Vec::new(heap))?)
}
