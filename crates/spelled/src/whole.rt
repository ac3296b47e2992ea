//! A sheet from the calls that tell it.
ghost use Rattle.std.specs.Prelude.{◌≡◌, [], ◌∷◌, ◌++◌, length, OnOk, OnErr};
ghost use Rattle.filling.specs.Progress.{start};
ghost use Rattle.filling.specs.Runs.{Accepted, table_after};
ghost use Rattle.filling.specs.declared.call.Call.TheVariants.{Seal as seal_call};
ghost use Rattle.spelled.specs.Whole.{WholeSheet};

use crate::fault::WholeFault;
use filling::{Call, FillFault, Filling};
use rules::MOST;
use std::alloc::Global;
use table::{Parts, Slot, Table, Texts};

/// Puts the calls and then `seal` to a new filling, up to the first that is refused.
fn put_all(table: &mut [Slot], texts: Texts<'_>, calls: &[Call]) -> Result<(), FillFault>
    ensures accepted { OnOk result (Accepted texts.entry.sheet.now texts.entry.template.now (length table.old) start (calls.now ++ seal_call ∷ [])) }
    ensures after { OnOk result (table.new ≡ table_after start table.old (calls.now ++ seal_call ∷ [])) }
    ensures refused { OnErr result (¬ Accepted texts.entry.sheet.now texts.entry.template.now (length table.old) start (calls.now ++ seal_call ∷ [])) }
{
    let mut filling = Filling::new();
    for call in calls {
        filling.fill(table, texts, *call)?;
    }
    filling.fill(table, texts, Call::Seal)?;
    Ok(())
}

/// The sheet that the calls tell over the two texts, as a table with no entry too many.
pub fn filled(
    heap: Global,
    calls: &[Call],
    sheet: Vec<u8>,
    template: Vec<u8>,
) -> Result<Table, WholeFault>
    ensures { WholeSheet sheet.items template.items calls.now result }
{
    // A sheet within the limits has at most 65,535 entries, and its last End is told by no call.
    if calls.len() >= MOST {
        return Err(WholeFault::Refused);
    }
    let mut entries = vec![in heap; Slot::End { distance: 0 }; calls.len() + 1]?;
    let texts = Texts {
        sheet: sheet.as_slice(),
        template: template.as_slice(),
    };
    put_all(entries.as_mut_slice(), texts, calls)?;
    Ok(Table::open(Parts {
        entries,
        sheet,
        template,
    })?)
}
