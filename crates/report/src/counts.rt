//! How much of everything a sheet holds.
ghost use Rattle.std.specs.Prelude.{Some};
ghost use Rattle.report.specs.Reports.{counts_text_of};

use std::fmt;

/// Entries of the flat form, and trees of each kind at every depth; `invisible` is among `groups`.
#[derive(Clone, Copy, PartialEq, Eq, Debug)]
pub struct Counts {
    pub entries: usize,
    pub groups: usize,
    pub invisible: usize,
    pub names: usize,
    pub literals: usize,
    pub marks: usize,
}

impl fmt::Display for Counts {
    ghost output = { λ c. Some (counts_text_of c) };

    fn fmt<W: fmt::Write>(&self, f: &mut fmt::Formatter<W>) -> fmt::Result {
        write!(
            f,
            "entries   {}\ngroups    {}, invisible: {}\nnames     {}\nliterals  {}\nmarks     {}",
            self.entries, self.groups, self.invisible, self.names, self.literals, self.marks,
        )
    }
}
