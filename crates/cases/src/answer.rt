//! Answers, and how they are written.
ghost use Rattle.std.specs.Prelude.{Some};
ghost use Rattle.cases.specs.Answers.{Opening, answer_text};

use case_text::Refusal;
use packed::Packed;
use sheet::StoreFault;
use std::fmt;

/// What a question is answered.
#[derive(Clone, Copy)]
pub enum Answer {
    Ok,
    Refused(StoreFault),
    /// The store of the case was refused, so there is nothing to ask.
    Closed,
    /// The line is no question.
    Unknown,
}

impl fmt::Display for Answer {
    ghost output = { λ a. Some (answer_text a) };

    fn fmt<W: fmt::Write>(&self, f: &mut fmt::Formatter<W>) -> fmt::Result {
        match self {
            Answer::Ok => f.write_str("ok"),
            Answer::Refused(fault) => write!(f, "{}", Refusal(*fault)),
            Answer::Closed => f.write_str("closed"),
            Answer::Unknown => f.write_str("unknown"),
        }
    }
}

/// Opens bytes as a packed sheet.
pub fn opening(bytes: Vec<u8>) -> Answer
    ensures { Opening bytes.items result }
{
    match Packed::open(bytes) {
        Ok(_) => Answer::Ok,
        Err(refused) => Answer::Refused(refused.fault),
    }
}
