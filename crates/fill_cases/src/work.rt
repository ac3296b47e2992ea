//! A filling in a case.
use filling::Filling;
use table::Parts;

/// A filling, the table that it fills, and both texts.
#[derive(Drop)]
pub struct Work {
    pub filling: Filling,
    pub parts: Parts,
}
