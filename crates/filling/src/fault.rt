//! Why a fill call is refused.
ghost use Rattle.std.specs.Prelude.{◌≡◌};
ghost use Rattle.filling.specs.Numbers.{fill_fault_number};

/// Why a fill call is refused, in the order in which the causes are tried, each with its number.
#[derive(Clone, Copy, PartialEq, Eq, Debug)]
pub enum FillFault {
    /// The filling is sealed.
    Sealed = 1,
    /// An apostrophe waits for its name.
    NameWanted = 2,
    /// The mark is not legal.
    Mark = 3,
    /// The text place is not good.
    Text = 4,
    /// The delimiter is above 3.
    Delimiter = 5,
    /// No group is open that could be closed.
    NoGroup = 6,
    /// A group is still open.
    GroupOpen = 7,
    /// 60 groups are open.
    TooDeep = 8,
    /// The table is too short.
    TooShort = 9,
}

impl From<FillFault> for u8 {
    ghost from_gives = { λ fault number. number ≡ fill_fault_number fault };

    fn from(fault: FillFault) -> u8 {
        fault as u8
    }
}
