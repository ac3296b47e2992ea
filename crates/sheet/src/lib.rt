//! The subject: what a key sheet is, and the interface of every place where one is kept.
#![tactic(auto)]

mod entry;
mod fault;
mod for_ref;
mod kind;
mod same;
mod store;
mod tree;

pub use entry::Entry;
pub use fault::{Refused, Rule, StoreFault};
pub use kind::{Delimiter, EntryKind, Spacing, Stamps, UnknownDelimiter, UnknownSpacing};
pub use same::same_sheet;
pub use store::Store;
pub use tree::Tree;
