//! A text of cases, line by line.
ghost use Rattle.std.specs.Prelude.{◌≡◌, ℕ, ◌<◌, List, ◌++◌, length, IfOk, IfSome, OnOk};
ghost use Rattle.case_text.specs.Texts.{answered, lines, Line, Replays};

use crate::each_line::Lines;
use crate::line::question;
use std::alloc::{AllocError, Global};
use std::fmt::Display;

/// What a case is: how it begins, what each question is answered and leads to, and how an answer is written.
pub trait Replay: Drop {
    type Answer;

    // The case that no line was read of.
    ghost fresh_case: { Self };

    // A question in a case leads to the next case and is answered so.
    ghost steps: { Self → List ℕ → Self → Self.Answer → Type 0 };

    // What stands behind a question, the end of the line with it.
    ghost written: { Self → Self.Answer → List ℕ };

    /// The case that no line was read of.
    fn fresh() -> Self
        ensures { result ≡ fresh_case };

    /// Takes the next question, and gives the case after it and its answer.
    fn ask(self, heap: Global, question: &[u8]) -> Result<(Self, Self::Answer), AllocError>
        ensures { IfOk result (λ p. steps self question.now p.0 p.1) };

    /// Writes an answer of the case behind its question, and ends the line.
    fn write_answer(
        &self,
        heap: Global,
        answer: Self::Answer,
        out: &mut Vec<u8>,
    ) -> Result<(), AllocError>
        ensures { OnOk result (out.new.items ≡ out.old.items ++ written self.now answer) };
}

/// Writes an answer behind its question, and ends the line.
pub fn write_answered<A: Display>(
    heap: Global,
    answer: &A,
    out: &mut Vec<u8>,
) -> Result<(), AllocError>
    ensures { OnOk result (IfSome (A.output answer.now) (λ text. out.new.items ≡ out.old.items ++ answered text)) }
{
    let text = format!(in heap; " = {answer}\n")?;
    out.extend_from_slice(text.as_bytes())
}

/// A text of cases, written back with every answer worked out afresh.
pub fn replayed<C: Replay>(heap: Global, text: &[u8]) -> Result<Vec<u8>, AllocError>
    ensures { IfOk result (λ out. Replays C.fresh_case C.steps C.written C.fresh_case (lines text.now) out.items) }
{
    let mut out = Vec::new(heap);
    let mut case = C::fresh();
    for line in Lines::of(text) {
        // A blank line ends the case.
        if line.is_empty() {
            out.extend_from_slice(b"\n")?;
            case = C::fresh();
            continue;
        }
        case = write_back(heap, case, line, &mut out)?;
    }
    Ok(out)
}

/// Writes a line that is not blank back, and gives the case after it.
fn write_back<C: Replay>(
    heap: Global,
    case: C,
    line: &[u8],
    out: &mut Vec<u8>,
) -> Result<C, AllocError>
    requires { 0 < length line.now }
    ensures { IfOk result (λ next. (w : List ℕ) × Line C.fresh_case C.steps C.written case line.now next w × (out.new.items ≡ out.old.items ++ w)) }
{
    let asked = question(line);
    out.extend_from_slice(asked)?;
    let (next, answer) = case.ask(heap, asked)?;
    next.write_answer(heap, answer, out)?;
    Ok(next)
}
