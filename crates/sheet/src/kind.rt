//! The small closed lists of the subject, as enums; `specs/Numbers` gives their numbers.
ghost use Rattle.std.specs.Prelude.{◌≡◌};
ghost use Rattle.sheet.specs.Numbers.{kind_number, delimiter_number, spacing_number, NamesDelimiter, NamesSpacing};
ghost use Rattle.sheet.specs.Questions.{three};

/// What stands at a place of the flat form.
#[derive(Clone, Copy, PartialEq, Eq, Debug)]
pub enum EntryKind {
    Group = 0,
    Name = 1,
    Mark = 2,
    Literal = 3,
    End = 4,
    // Not an Option: the answer "none" is a kind with a number of its own, 5, as the numbers are given.
    Nothing = 5,
}

impl From<EntryKind> for u8 {
    ghost from_gives = { λ kind number. number ≡ kind_number kind };

    fn from(kind: EntryKind) -> u8 {
        kind as u8
    }
}

/// The brackets of a group. An invisible group is one that nobody wrote: a template's text came in it.
#[derive(Clone, Copy, PartialEq, Eq, Debug)]
pub enum Delimiter {
    Invisible = 0,
    Parenthesis = 1,
    Brace = 2,
    Bracket = 3,
}

impl From<Delimiter> for u8 {
    ghost from_gives = { λ delimiter number. number ≡ delimiter_number delimiter };

    fn from(delimiter: Delimiter) -> u8 {
        delimiter as u8
    }
}

/// A number that no delimiter has.
#[derive(Clone, Copy, PartialEq, Eq, Debug)]
pub struct UnknownDelimiter(pub u32);

impl TryFrom<u32> for Delimiter {
    type Error = UnknownDelimiter;

    ghost try_from_gives = { NamesDelimiter };

    fn try_from(number: u32) -> Result<Delimiter, UnknownDelimiter> {
        match number {
            0 => Ok(Delimiter::Invisible),
            1 => Ok(Delimiter::Parenthesis),
            2 => Ok(Delimiter::Brace),
            3 => Ok(Delimiter::Bracket),
            _ => Err(UnknownDelimiter(number)),
        }
    }
}

/// Whether the next mark was written directly behind this one, as the `=` of `+=` is.
#[derive(Clone, Copy, PartialEq, Eq, Debug)]
pub enum Spacing {
    Alone = 0,
    Joint = 1,
}

impl From<Spacing> for u8 {
    ghost from_gives = { λ spacing number. number ≡ spacing_number spacing };

    fn from(spacing: Spacing) -> u8 {
        spacing as u8
    }
}

/// A number that no spacing has.
#[derive(Clone, Copy, PartialEq, Eq, Debug)]
pub struct UnknownSpacing(pub u32);

impl TryFrom<u32> for Spacing {
    type Error = UnknownSpacing;

    ghost try_from_gives = { NamesSpacing };

    fn try_from(number: u32) -> Result<Spacing, UnknownSpacing> {
        match number {
            0 => Ok(Spacing::Alone),
            1 => Ok(Spacing::Joint),
            _ => Err(UnknownSpacing(number)),
        }
    }
}

/// Where something was written: all of it, and, for a group, its two brackets.
#[derive(Clone, Copy, PartialEq, Eq, Debug)]
pub struct Stamps<T> {
    pub whole: T,
    pub opening: T,
    pub closing: T,
}

impl<T: Copy> Stamps<T> {
    /// One stamp for all three, as that of a name is.
    pub fn alike(stamp: T) -> Stamps<T>
        ensures { result ≡ three stamp stamp stamp }
    {
        Stamps {
            whole: stamp,
            opening: stamp,
            closing: stamp,
        }
    }
}
