//! The first line of a case.
ghost use Rattle.std.specs.Prelude.{IfOk};
ghost use Rattle.notation.specs.Parts.{front, behind};
ghost use Rattle.fill_cases.specs.Steps.{Begins, BeginsOrNot, BeginsSheetOrNot};
ghost use Rattle.fill_cases.specs.Verbs.{verb_of};

use crate::answer::Answer;
use crate::case::{Case, Opened};
use crate::opened::{open_packed, open_table};
use crate::verb::{Verb, asked};
use crate::work::Work;
use filling::Filling;
use lines::{LineFault, from_hex, parts_of_filling_in, parts_of_slots_in};
use notation::{Split, first_part};
use spelled::{SpelledFault, spelled_in};
use std::alloc::{AllocError, Global};

/// The first line of a case makes its store.
pub(crate) fn begun(heap: Global, question: &[u8]) -> Result<(Case, Answer), AllocError>
    ensures { IfOk result (λ p. Begins (verb_of (front 32 question.now)) (behind 32 question.now) p.0 p.1) }
{
    // Matched here and in the other crate of cases: one function would take the pair for an unknown line and say no more.
    match begin(heap, question) {
        Ok(begun) => Ok(begun),
        Err(LineFault::Unknown) => Ok((Case::Unknown, Answer::Unknown)),
        Err(LineFault::Memory) => Err(AllocError),
    }
}

fn begin(heap: Global, question: &[u8]) -> Result<(Case, Answer), LineFault>
    ensures { BeginsOrNot (verb_of (front 32 question.now)) (behind 32 question.now) result }
{
    let (verb, words) = asked(question);
    match verb {
        Verb::Packed => {
            let (_, rest) = first_part(question, b' ');
            let bytes = from_hex(heap, rest.ok_or(LineFault::Unknown)?)?;
            Ok(open_packed(bytes))
        }
        Verb::Slots => Ok(open_table(parts_of_slots_in(heap, words)?)),
        Verb::Sheet => sheet(heap, words),
        Verb::Filling => {
            let parts = parts_of_filling_in(heap, words)?;
            let filling = Filling::new();
            Ok((Case::Filling(Work { filling, parts }), Answer::Silent))
        }
        _ => Err(LineFault::Unknown),
    }
}

fn sheet(heap: Global, words: Split<'_>) -> Result<(Case, Answer), LineFault>
    ensures { BeginsSheetOrNot words.entry result }
{
    match spelled_in(heap, words) {
        Ok(store) => Ok((Case::Table(Opened::Whole(store)), Answer::Silent)),
        Err(SpelledFault::NotASheet) => Err(LineFault::Unknown),
        Err(SpelledFault::Lawless) => Ok((Case::Closed, Answer::Silent)),
        Err(SpelledFault::Memory) => Err(LineFault::Memory),
    }
}
