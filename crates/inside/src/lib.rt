//! The contents of a group as a store of their own, over any store.
#![tactic(auto)]

mod inside;
mod questions;
mod under;

pub use inside::{Inside, NoGroup};
