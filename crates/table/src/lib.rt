//! A sheet kept as a table of entries and two texts: what the sheet's writer wrote, and what was filled in from templates.
#![tactic(auto)]

mod parts;
mod questions;
mod slot;
mod table;
mod texts;

pub use parts::Parts;
pub use slot::{Slot, TextPlace};
pub use table::Table;
pub use texts::{LONGEST, Texts};
