//! Sheets that are spelled out: by the calls that tell them, and by the words of a line.
#![tactic(auto)]

mod fault;
mod line;
mod reading;
mod whole;

pub use fault::{SpelledFault, WholeFault};
pub use line::{spelled, spelled_in};
pub use whole::filled;
