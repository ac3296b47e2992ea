//! What a program that replays does.
ghost use Rattle.std.specs.Prelude.{OnOk};
ghost use Rattle.case_text.specs.Texts.{WritesBack};

use crate::replay::{Replay, replayed};
use std::alloc::Global;
use std::io;
use std::io::{Read, Write};

/// Reads a text of cases to its end and writes it back, with every answer worked out afresh.
pub fn replay_input<C: Replay, R: Read, W: Write>(
    heap: Global,
    input: &mut R,
    output: &mut W,
) -> io::Result<()>
    ensures { OnOk result (WritesBack C.fresh_case C.steps C.written (R.remaining input.old) (R.remaining input.new) (W.contents output.old) (W.contents output.new)) }
{
    let mut text = Vec::new(heap);
    input.read_to_end(&mut text)?;
    let out = replayed::<C>(heap, text.as_slice())?;
    output.write_all(out.as_slice())
}
