//! Answers, and how they are written.
ghost use Rattle.std.specs.Prelude.{Some};
ghost use Rattle.fill_cases.specs.Answers.{answer_text};

use case_text::Refusal;
use filling::FillFault;
use inside::NoGroup;
use sheet::StoreFault;
use std::fmt;

/// What a question is answered.
#[derive(Clone, Copy)]
pub enum Answer {
    Ok,
    /// The place that a fill call wrote.
    Wrote(usize),
    NotOpened(StoreFault),
    NotFilled(FillFault),
    /// No group stands at the place.
    NoGroup,
    /// The entries of the table.
    Entries,
    /// The question has no answer by its nature.
    // A case and no None: an Option around the eight others would be taken apart wherever an answer is written.
    Silent,
    /// The store of the case was refused, so there is nothing to ask.
    Closed,
    /// The line is no question.
    Unknown,
}

impl fmt::Display for Answer {
    ghost output = { λ a. Some (answer_text a) };

    fn fmt<W: fmt::Write>(&self, f: &mut fmt::Formatter<W>) -> fmt::Result {
        match self {
            Answer::Ok => f.write_str("ok"),
            Answer::Wrote(place) => write!(f, "ok {place}"),
            Answer::NotOpened(fault) => write!(f, "{}", Refusal(*fault)),
            Answer::NotFilled(fault) => {
                let number = u8::from(*fault);
                write!(f, "no {number}")
            }
            Answer::NoGroup => {
                let number = NoGroup { below: () }.number();
                write!(f, "no {number}")
            }
            Answer::Entries | Answer::Silent => f.write_str(""),
            Answer::Closed => f.write_str("closed"),
            Answer::Unknown => f.write_str("unknown"),
        }
    }
}
