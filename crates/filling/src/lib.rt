//! Filling a table with a sheet, call by call.
#![tactic(auto)]

mod call;
mod fault;
mod filling;

pub use call::{Call, State};
pub use fault::FillFault;
pub use filling::Filling;
