//! The tree that begins at a place, as whoever reads a sheet sees it.
use crate::kind::{Delimiter, Spacing};

/// The tree that begins at a place; a group stands without its contents. Texts are borrowed from the store.
#[derive(Clone, Copy)]
pub enum Tree<'a> {
    Name(&'a [u8]),
    Literal(&'a [u8]),
    Mark(char, Spacing),
    Group(Delimiter),
}
