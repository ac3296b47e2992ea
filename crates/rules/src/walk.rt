//! What the judge remembers between two entries.
use arrayvec::ArrayVec;

/// At most this many groups are open anywhere in a sheet.
pub const DEEPEST: usize = 60;

/// A group that is open: its place, and the distance to its End that it claims.
#[derive(Clone, Copy, Default)]
pub struct Open {
    pub from: usize,
    pub claims: usize,
}

/// What the judge remembers between two entries: whether an apostrophe waits for its name, and the groups that are open, the
/// innermost last. Their memory is fixed: no sheet makes the judge ask for more.
#[derive(Drop)]
pub(crate) struct Walk {
    pub(crate) waiting: bool,
    pub(crate) open_groups: ArrayVec<Open, DEEPEST>,
}

/// What an entry that is in order does to the walk.
#[derive(Clone, Copy)]
pub(crate) enum Next {
    /// The walk goes on.
    On,
    /// It is the End that closes the sheet.
    Done,
}
