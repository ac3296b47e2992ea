//! The fill calls by their names, and how far a filling has come. A method reads well where a call is written out; `Call` is for
//! lists of calls.
ghost use Rattle.std.specs.Prelude.{◌≡◌, ◌≤◌};
ghost use Rattle.filling.specs.Filling.{Fills};
ghost use Rattle.filling.specs.Progress.{Bounded};
ghost use Rattle.filling.specs.declared.call.Call.TheVariants.{Name as name_call, Mark as mark_call, Literal as literal_call, Open as open_call, Close as close_call, Seal as seal_call};

use crate::call::Call;
use crate::fault::FillFault;
use crate::filling::Filling;
use table::{Slot, TextPlace, Texts};

impl Filling {
    /// How many entries are written.
    pub fn written(&self) -> usize
        ensures is { result ≡ self.now.written }
        ensures few { result ≤ 65535 }
        ensures bounded { Bounded self.now }
    {
        self.written
    }

    /// Writes a name.
    pub fn name(
        &mut self,
        table: &mut [Slot],
        texts: Texts<'_>,
        place: TextPlace,
        stamp: u32,
    ) -> Result<usize, FillFault>
        ensures { Fills texts.entry self.old table.old (name_call place stamp) result self.new table.new }
    {
        self.fill(table, texts, Call::Name { place, stamp })
    }

    /// Writes a mark. After an apostrophe only a name is accepted.
    pub fn mark(
        &mut self,
        table: &mut [Slot],
        texts: Texts<'_>,
        character: char,
        spacing: u32,
        stamp: u32,
    ) -> Result<usize, FillFault>
        ensures { Fills texts.entry self.old table.old (mark_call character spacing stamp) result self.new table.new }
    {
        self.fill(
            table,
            texts,
            Call::Mark {
                character,
                spacing,
                stamp,
            },
        )
    }

    /// Writes a literal.
    pub fn literal(
        &mut self,
        table: &mut [Slot],
        texts: Texts<'_>,
        place: TextPlace,
        stamp: u32,
    ) -> Result<usize, FillFault>
        ensures { Fills texts.entry self.old table.old (literal_call place stamp) result self.new table.new }
    {
        self.fill(table, texts, Call::Literal { place, stamp })
    }

    /// Begins a group. Until it is closed, its Group has distance 0 and the call site as its closing stamp.
    pub fn open(
        &mut self,
        table: &mut [Slot],
        texts: Texts<'_>,
        delimiter: u32,
        whole: u32,
        opening: u32,
    ) -> Result<usize, FillFault>
        ensures { Fills texts.entry self.old table.old (open_call delimiter whole opening) result self.new table.new }
    {
        self.fill(
            table,
            texts,
            Call::Open {
                delimiter,
                whole,
                opening,
            },
        )
    }

    /// Ends the innermost group.
    pub fn close(
        &mut self,
        table: &mut [Slot],
        texts: Texts<'_>,
        closing: u32,
    ) -> Result<usize, FillFault>
        ensures { Fills texts.entry self.old table.old (close_call closing) result self.new table.new }
    {
        self.fill(table, texts, Call::Close { closing })
    }

    /// Ends the sheet.
    pub fn seal(&mut self, table: &mut [Slot], texts: Texts<'_>) -> Result<usize, FillFault>
        ensures { Fills texts.entry self.old table.old seal_call result self.new table.new }
    {
        self.fill(table, texts, Call::Seal)
    }
}
