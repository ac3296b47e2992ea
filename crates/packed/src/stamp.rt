//! Where something was written in a packed sheet.
ghost use Rattle.std.specs.Prelude.{◌≡◌};
ghost use Rattle.packed.specs.Sides.{side_number};

/// A stamp of a packed sheet: the place of an entry, and which side of it.
#[derive(Clone, Copy, PartialEq, Eq, Debug)]
pub struct Stamp {
    pub place: u16,
    pub side: Side,
}

/// The closing bracket of a group has a side of its own, since it shares its group's place.
#[derive(Clone, Copy, PartialEq, Eq, Debug)]
pub enum Side {
    Start = 0,
    Close = 1,
}

impl From<Side> for u8 {
    ghost from_gives = { λ side n. n ≡ side_number side };

    fn from(side: Side) -> u8 {
        side as u8
    }
}
