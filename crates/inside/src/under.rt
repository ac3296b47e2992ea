//! Where an entry of the contents is kept.

/// What a place of the contents is led to: a place below, or the End that closes the contents.
#[derive(Clone, Copy)]
pub(crate) enum Under {
    Below(usize),
    // No absence, so no `None`: it is an entry of the contents that no place below holds.
    Last,
}
