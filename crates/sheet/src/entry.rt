//! One entry of the flat form, as a store tells it.
use crate::kind::{Delimiter, Spacing, Stamps};

/// An entry with all that belongs to it. Texts are borrowed from the store.
#[derive(Clone, Copy)]
pub enum Entry<'a, T> {
    Group {
        /// How far its End is.
        distance: usize,
        delimiter: Delimiter,
        stamps: Stamps<T>,
    },
    Name {
        text: &'a [u8],
        stamp: T,
    },
    Mark {
        character: char,
        spacing: Spacing,
        stamp: T,
    },
    Literal {
        text: &'a [u8],
        stamp: T,
    },
    End {
        /// How far its Group is; 0 at the last End, which closes the sheet.
        distance: usize,
    },
}
