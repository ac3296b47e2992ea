//! Why something could not be opened as a store: the causes, by number.
ghost use Rattle.std.specs.Prelude.{◌≡◌};
ghost use Rattle.sheet.specs.Numbers.{fault_number};

/// The flat rules, each by what breaks it; docs/SHEETS.md has them in words.
#[derive(Clone, Copy, PartialEq, Eq, Debug)]
pub enum Rule {
    /// There are more entries than 65,535.
    TooMany,
    /// The entry is of a kind that nobody knows.
    UnknownKind,
    /// Something else than a name stands after an apostrophe.
    NameWanted,
    /// The text of a name or literal is not good.
    Text,
    /// The character or the spacing of a mark is not legal.
    Mark,
    /// The delimiter of a group is above 3.
    Delimiter,
    /// 60 groups are open already.
    TooDeep,
    /// The distance at an End does not match.
    Distance,
    /// Entries stand behind the End that closes the sheet.
    EndTooEarly,
    /// The End that closes the sheet is missing.
    EndMissing,
}

/// Why something offered as a sheet was not opened as a store.
#[derive(Clone, Copy, PartialEq, Eq, Debug)]
pub enum StoreFault {
    /// The packed frame is broken, so there are no entries to judge.
    Frame,
    /// The entries break a flat rule: the first place that does, and the rule.
    Rules { place: usize, rule: Rule },
}

/// Something offered as a sheet that is none, handed back whole with the reason.
#[derive(Drop)]
pub struct Refused<T> {
    pub fault: StoreFault,
    pub given: T,
}

impl StoreFault {
    /// The refusal's number, as docs/REFUSALS.md lists it.
    // Not a `From`: the number holds neither the place nor the rule.
    pub fn number(&self) -> u8
        ensures { result ≡ fault_number self.now }
    {
        match self {
            StoreFault::Frame => 11,
            StoreFault::Rules { .. } => 10,
        }
    }
}
