//! The notation of cases: what a piece of a line says, and how an entry of a table is written.
#![tactic(auto)]

mod calls;
mod entries;
mod fields;
mod numerals;
mod parts;
mod text_parts;
mod tokens;

pub use calls::call;
pub use entries::{slot, write_slot};
pub use numerals::{number, numbers, numbers_in};
pub use parts::{Split, first_part, split_first, split_first_by};
pub use text_parts::TextParts;
pub use tokens::{SheetToken, token};
