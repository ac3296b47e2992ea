//! The questions of a filling.
ghost use Rattle.std.specs.Prelude.{◌≡◌};
ghost use Rattle.notation.specs.Numerals.{numbers_in};
ghost use Rattle.fill_cases.specs.Steps.{StepsFilling, Put, fill_asked};
ghost use Rattle.fill_cases.specs.Fills.{fill_question_said};
ghost use Rattle.fill_cases.specs.Verbs.{only};

use crate::answer::Answer;
use crate::case::Case;
use crate::opened::open_table;
use crate::verb::{Verb, asked};
use crate::work::Work;
use filling::Call;
use notation::{Split, call, numbers_in};
use table::Texts;

/// What a question asks of a filling.
#[derive(Clone, Copy)]
pub enum FillQuestion {
    Call(Call),
    Show,
    Cut(u32),
    Read,
}

/// The only number behind a word.
pub(crate) fn one_number(rest: Split<'_>) -> Option<u32>
    ensures { result ≡ only (numbers_in 1 rest.entry) }
{
    let [number] = numbers_in::<1, _>(rest)?;
    Some(number)
}

fn fill_question(question: &[u8]) -> Option<FillQuestion>
    ensures { fill_question_said result ≡ fill_asked question.now }
{
    let (verb, mut rest) = asked(question);
    match verb {
        Verb::Table => rest.next().is_none().then_some(FillQuestion::Show),
        Verb::Read => rest.next().is_none().then_some(FillQuestion::Read),
        Verb::Cut => Some(FillQuestion::Cut(one_number(rest)?)),
        Verb::Other => Some(FillQuestion::Call(call(question)?)),
        _ => None,
    }
}

/// Takes a question of a filling.
pub(crate) fn fill_step(work: Work, question: &[u8]) -> (Case, Answer)
    ensures { StepsFilling work (fill_asked question.now) result.0 result.1 }
{
    let mut work = work;
    match fill_question(question) {
        Some(FillQuestion::Call(call)) => {
            let answer = put(&mut work, call);
            (Case::Filling(work), answer)
        }
        Some(FillQuestion::Show) => (Case::Filling(work), Answer::Entries),
        Some(FillQuestion::Cut(count)) => {
            work.parts.entries.truncate(count as usize);
            (Case::Filling(work), Answer::Silent)
        }
        Some(FillQuestion::Read) => {
            let Work { filling, mut parts } = work;
            parts.entries.truncate(filling.written());
            open_table(parts)
        }
        None => (Case::Filling(work), Answer::Unknown),
    }
}

/// Puts a call to the filling.
fn put(work: &mut Work, call: Call) -> Answer
    ensures { Put work.old call work.new result }
{
    // Not `Parts::texts`, which would borrow the entries too, and the call writes them.
    let texts = Texts {
        sheet: work.parts.sheet.as_slice(),
        template: work.parts.template.as_slice(),
    };
    match work
        .filling
        .fill(work.parts.entries.as_mut_slice(), texts, call)
    {
        Ok(place) => Answer::Wrote(place),
        Err(fault) => Answer::NotFilled(fault),
    }
}
