//! What `keysheet show` reports of a sheet: how much it holds, and its text.
#![tactic(auto)]

mod counts;
mod reports;
mod texts;
mod totals;
mod view;
mod words;

pub use counts::Counts;
pub use reports::{explain, show};
pub use texts::text;
pub use totals::tally;
pub use view::View;
