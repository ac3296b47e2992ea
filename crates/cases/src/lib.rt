//! Cases that are replayed: what their questions are answered.
#![tactic(auto)]

mod answer;
mod case;
mod text;

pub use answer::{Answer, opening};
pub use case::Case;
pub use case_text::{LineFault, from_hex, question};
pub use text::{replay_input, replayed};
