//! The text of written cases: its lines, their questions and bytes, and how a text is written back with every answer
//! worked out afresh, for whatever a case is.
#![tactic(auto)]

mod digits;
mod each_line;
mod fault;
mod line;
mod program;
mod refusal;
mod replay;
#[cfg(test)]
mod tests;

pub use digits::from_hex;
pub use fault::LineFault;
pub use line::question;
pub use program::replay_input;
pub use refusal::Refusal;
pub use replay::{Replay, replayed, write_answered};
