//! What the first line of a case gives to make a store of.
ghost use Rattle.lines.specs.Beginnings.{slots_given, filling_given, parts_said};
ghost use Rattle.case_text.specs.Faults.{Gives};

use crate::slots::entries_in;
use bstr::Split;
use case_text::{LineFault, from_hex};
use notation::{TextParts, number};
use std::alloc::Global;
use table::{Parts, Slot};

/// What stands behind `slots`: the sheet text, the template text, and the entries. The library split the line.
pub fn parts_of_slots(heap: Global, words: Split<'_, '_>) -> Result<Parts, LineFault>
    ensures { Gives parts_said (slots_given words.entry) result }
{
    parts_of_slots_in(heap, words)
}

/// What stands behind `filling`, as `parts_of_filling_in` says. The library split the line.
pub fn parts_of_filling(heap: Global, words: Split<'_, '_>) -> Result<Parts, LineFault>
    ensures { Gives parts_said (filling_given words.entry) result }
{
    parts_of_filling_in(heap, words)
}

/// What stands behind `slots`: the sheet text, the template text, and the entries.
pub fn parts_of_slots_in<'a, P: TextParts<'a>>(heap: Global, words: P) -> Result<Parts, LineFault>
    ensures { Gives parts_said (slots_given (P.left words)) result }
{
    let mut words = words;
    // Two texts, and then the entries.
    let sheet = words.next_part().ok_or(LineFault::Unknown)?;
    let template = words.next_part().ok_or(LineFault::Unknown)?;
    let entries = entries_in(heap, words)?;
    let sheet = from_hex(heap, sheet)?;
    let template = from_hex(heap, template)?;
    Ok(Parts {
        entries,
        sheet,
        template,
    })
}

/// What stands behind `filling`: how many entries the table has, the sheet text, and the template text. Each entry is at first
/// an End of distance 0.
pub fn parts_of_filling_in<'a, P: TextParts<'a>>(heap: Global, words: P) -> Result<Parts, LineFault>
    ensures { Gives parts_said (filling_given (P.left words)) result }
{
    let mut words = words;
    let count = words.next_part().ok_or(LineFault::Unknown)?;
    let sheet = words.next_part().ok_or(LineFault::Unknown)?;
    let template = words.next_part().ok_or(LineFault::Unknown)?;
    if words.next_part().is_some() {
        return Err(LineFault::Unknown);
    }
    let count = number(count).ok_or(LineFault::Unknown)?;
    // The last lines are those of `parts_of_slots_in`: a function for them would take three pieces and promise as much as both.
    let entries = vec![in heap; Slot::End { distance: 0 }; count as usize]?;
    let sheet = from_hex(heap, sheet)?;
    let template = from_hex(heap, template)?;
    Ok(Parts {
        entries,
        sheet,
        template,
    })
}
