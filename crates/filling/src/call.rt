//! The fill calls, and what a filling waits for.
use table::TextPlace;

/// A fill call. Delimiter and spacing are numbers as somebody wrote them; whether they are legal is what the answer says.
#[derive(Clone, Copy, PartialEq, Eq, Debug)]
pub enum Call {
    Name {
        place: TextPlace,
        stamp: u32,
    },
    Mark {
        character: char,
        spacing: u32,
        stamp: u32,
    },
    Literal {
        place: TextPlace,
        stamp: u32,
    },
    Open {
        delimiter: u32,
        whole: u32,
        opening: u32,
    },
    Close {
        closing: u32,
    },
    Seal,
}

/// What a filling waits for.
#[derive(Clone, Copy, PartialEq, Eq, Debug)]
pub enum State {
    /// Any call.
    Open,
    /// The name that an apostrophe begins.
    Waiting,
    /// Nothing: the sheet is closed.
    Sealed,
}
