//! The two readings of a sheet that a report shows.

/// How a sheet is looked at.
#[derive(Clone, Copy, PartialEq, Eq, Debug)]
pub enum View {
    /// As it was filled, with every invisible group.
    Filled,
    /// The plain reading: invisible groups have given way to their contents.
    Plain,
}

/// What one entry adds to the text.
#[derive(Clone, Copy)]
pub(crate) enum Word<'a> {
    /// A name or a literal; the gap behind it is a blank.
    Text(&'a [u8]),
    /// A mark or a bracket, and the gap behind it.
    Sign(char, Option<char>),
}
