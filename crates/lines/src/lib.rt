//! What the pieces of a line of a case say.
#![tactic(auto)]

mod given;
mod slots;

pub use case_text::{LineFault, from_hex, question};
pub use given::{parts_of_filling, parts_of_filling_in, parts_of_slots, parts_of_slots_in};
pub use slots::{entries, entries_in, write_entries};
