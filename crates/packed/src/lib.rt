//! A sheet packed into bytes.
#![tactic(auto)]

mod frame;
mod framed;
mod packed;
mod questions;
mod slot;
mod stamp;

pub use packed::Packed;
pub use stamp::{Side, Stamp};
