//! An entry as its three bytes have it.
ghost use Rattle.std.specs.Prelude.{◌≡◌, ℕ, List};
ghost use Rattle.packed.specs.Format.{meant};
ghost use Rattle.packed.specs.Slots.{found};

use sheet::Delimiter;

/// One entry as it is read from the bytes: a name or literal by the number of its pair.
#[derive(Clone, Copy)]
pub(crate) enum Slot {
    Group(Delimiter, u16),
    Name(u16),
    Literal(u16),
    // The two bytes as they stand: whether the second is a spacing is for the rules to say.
    Mark(u8, u8),
    End(u16),
}

impl Slot {
    /// What a kind byte and a value stand for; no entry is of a kind above 7.
    pub(crate) fn of(kind: u8, value: u16) -> Option<Slot>
        ensures { (bs : List ℕ) (k : ℕ) → found bs k result ≡ meant bs k kind value }
    {
        Some(match kind {
            0..=3 => Slot::Group(Delimiter::try_from(u32::from(kind)).ok()?, value),
            4 => Slot::Name(value),
            5 => Slot::Literal(value),
            6 => {
                let [character, spacing] = value.to_le_bytes();
                Slot::Mark(character, spacing)
            }
            7 => Slot::End(value),
            _ => return None,
        })
    }
}
