//! The entries of a table.

/// Where a text stands: in which text, from which byte, and how many bytes long. Text 0 is the sheet's, text 1 the template's.
#[derive(Clone, Copy, PartialEq, Eq, Debug)]
pub struct TextPlace {
    pub text: u32,
    pub offset: u32,
    pub length: u32,
}

/// One entry of a table. The fields are numbers as somebody wrote them; whether they are legal is judged later.
#[derive(Clone, Copy, PartialEq, Eq, Debug)]
pub enum Slot {
    // Three stamps and no `Stamps`: an entry is written and read as a row of numbers.
    Group {
        distance: u32,
        delimiter: u32,
        whole: u32,
        opening: u32,
        closing: u32,
    },
    Name {
        place: TextPlace,
        stamp: u32,
    },
    Mark {
        character: char,
        spacing: u32,
        stamp: u32,
    },
    Literal {
        place: TextPlace,
        stamp: u32,
    },
    End {
        distance: u32,
    },
}
