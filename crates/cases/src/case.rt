//! A case, question by question.
ghost use Rattle.std.specs.Prelude.{◌≡◌, ℕ, List, IfOk, IfErr};
ghost use Rattle.case_text.specs.declared.fault.LineFault.TheVariants.{Unknown};
ghost use Rattle.cases.specs.Answers.{Opening};
ghost use Rattle.cases.specs.Steps.{HandsOver, First, Steps, begun as begun_by};

use crate::answer::{Answer, opening};
use case_text::{LineFault, from_hex};
use std::alloc::{AllocError, Global};

/// How far a case has come.
#[derive(Clone, Copy, PartialEq, Eq, Debug)]
pub enum Case {
    /// No line of it was read: the first one makes its store.
    Fresh,
    Open,
    /// The store was refused.
    Closed,
    /// The first line is no question, so there is no store to ask.
    Unknown,
}

impl Case {
    /// Takes the next question, and gives its answer and the case after it.
    pub fn step(self, heap: Global, question: &[u8]) -> Result<(Case, Answer), AllocError>
        ensures { IfOk result (λ p. Steps self question.now p.0 p.1) }
    {
        match self {
            Case::Fresh => begun(heap, question),
            Case::Open => Ok((Case::Open, Answer::Unknown)),
            Case::Closed => Ok((Case::Closed, Answer::Closed)),
            Case::Unknown => Ok((Case::Unknown, Answer::Unknown)),
        }
    }
}

/// The case once its first question was answered so.
impl From<Answer> for Case {
    ghost from_gives = { λ a c. c ≡ begun_by a };

    fn from(answer: Answer) -> Case {
        match answer {
            Answer::Ok => Case::Open,
            Answer::Refused(_) | Answer::Closed => Case::Closed,
            Answer::Unknown => Case::Unknown,
        }
    }
}

/// The answer to the first question of a case decides what the case is.
fn begun(heap: Global, question: &[u8]) -> Result<(Case, Answer), AllocError>
    ensures { IfOk result (λ p. First question.now p.1 × (p.0 ≡ begun_by p.1)) }
{
    // Matched here and in the other crate of cases: one function would take the pair for an unknown line and say no more.
    match first_answer(heap, question) {
        Ok(answer) => Ok((Case::from(answer), answer)),
        Err(LineFault::Unknown) => Ok((Case::Unknown, Answer::Unknown)),
        Err(LineFault::Memory) => Err(AllocError),
    }
}

/// The first question of a case is `packed HEX`.
fn first_answer(heap: Global, question: &[u8]) -> Result<Answer, LineFault>
    ensures opens { IfOk result (λ a. (bs : List ℕ) × HandsOver question.now bs × Opening bs a) }
    ensures unknown { IfErr result (λ e. e ≡ Unknown → (bs : List ℕ) → HandsOver question.now bs → ⊥) }
{
    let text = question.strip_prefix(b"packed ").ok_or(LineFault::Unknown)?;
    Ok(opening(from_hex(heap, text)?))
}
