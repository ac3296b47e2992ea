//! What opening a store answers, and the case after it.
ghost use Rattle.fill_cases.specs.Steps.{OpensPacked, OpensTable};

use crate::answer::Answer;
use crate::case::{Case, Opened};
use packed::Packed;
use table::{Parts, Table};

// Two functions: one over both would take the case to make as a closure, and its contract would speak of what the closure does.

/// Opens bytes as a packed sheet.
pub(crate) fn open_packed(bytes: Vec<u8>) -> (Case, Answer)
    ensures { OpensPacked bytes result.0 result.1 }
{
    match Packed::open(bytes) {
        Ok(store) => (Case::Packed(Opened::Whole(store)), Answer::Ok),
        Err(refused) => (Case::Closed, Answer::NotOpened(refused.fault)),
    }
}

/// Opens entries and texts as a table.
pub(crate) fn open_table(parts: Parts) -> (Case, Answer)
    ensures { OpensTable parts result.0 result.1 }
{
    match Table::open(parts) {
        Ok(store) => (Case::Table(Opened::Whole(store)), Answer::Ok),
        Err(refused) => (Case::Closed, Answer::NotOpened(refused.fault)),
    }
}
