//! A case, question by question.
use crate::work::Work;
use inside::Inside;
use packed::Packed;
use table::Table;

/// A store that was opened, or the contents of a group of it.
#[derive(Drop)]
pub enum Opened<S> {
    Whole(S),
    Inside(Inside<S>),
}

/// How far a case has come.
#[derive(Drop)]
pub enum Case {
    /// No line of it was read: the first one makes its store.
    Fresh,
    /// A packed sheet was opened.
    Packed(Opened<Packed>),
    /// A table was opened.
    Table(Opened<Table>),
    /// A table is being filled.
    Filling(Work),
    /// The store was refused.
    Closed,
    /// The first line is no question, so there is no store to ask.
    Unknown,
}
