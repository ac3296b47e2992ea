//! A text of cases.
ghost use Rattle.std.specs.Prelude.{IfOk, OnOk};
ghost use Rattle.case_text.specs.Texts.{lines, WritesBack};
ghost use Rattle.cases.specs.Steps.{Steps};
ghost use Rattle.cases.specs.Texts.{written, Replays};
ghost use Rattle.cases.specs.declared.case.Case.TheVariants.{Fresh as FreshCase};

use crate::answer::Answer;
use crate::case::Case;
use case_text::{Replay, write_answered};
use std::alloc::{AllocError, Global};
use std::io;
use std::io::{Read, Write};

/// A text of cases, written back with every answer worked out afresh.
// A function of this crate beside the generic one, since its promise speaks of what these cases are answered.
pub fn replayed(heap: Global, text: &[u8]) -> Result<Vec<u8>, AllocError>
    ensures { IfOk result (λ out. Replays FreshCase (lines text.now) out.items) }
{
    case_text::replayed::<Case>(heap, text)
}

/// Reads a text of cases to its end and writes it back, with every answer worked out afresh.
// Beside the generic one, so that what the program writes is what `replayed` gives.
pub fn replay_input<R: Read, W: Write>(
    heap: Global,
    input: &mut R,
    output: &mut W,
) -> io::Result<()>
    ensures { OnOk result (WritesBack FreshCase Steps written (R.remaining input.old) (R.remaining input.new) (W.contents output.old) (W.contents output.new)) }
{
    let mut text = Vec::new(heap);
    input.read_to_end(&mut text)?;
    let out = replayed(heap, text.as_slice())?;
    output.write_all(out.as_slice())
}

impl Replay for Case {
    type Answer = Answer;

    ghost fresh_case = { FreshCase };

    ghost steps = { Steps };

    ghost written = { written };

    // This and `ask` are inlined, since a case may be large and each call copies it.
    #[inline(always)]
    fn fresh() -> Case {
        Case::Fresh
    }

    #[inline(always)]
    fn ask(self, heap: Global, question: &[u8]) -> Result<(Case, Answer), AllocError> {
        self.step(heap, question)
    }

    fn write_answer(
        &self,
        heap: Global,
        answer: Answer,
        out: &mut Vec<u8>,
    ) -> Result<(), AllocError> {
        write_answered(heap, &answer, out)
    }
}
