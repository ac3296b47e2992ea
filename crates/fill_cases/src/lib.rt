//! Cases that are replayed: what their questions are answered.
#![tactic(auto)]

mod answer;
mod begun;
mod case;
mod fills;
mod opened;
mod step;
mod text;
mod verb;
mod work;

pub use answer::Answer;
pub use case::{Case, Opened};
pub use text::{replay_input, replayed};
pub use work::Work;
