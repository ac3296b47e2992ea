//! Bytes that are written in hexadecimal digits.
ghost use Rattle.std.specs.Prelude.{vec_items};
ghost use Rattle.case_text.specs.Digits.{pairs, hex_bytes};
ghost use Rattle.case_text.specs.Faults.{Gives};

use crate::fault::LineFault;
use std::alloc::Global;

/// The bytes that a text writes in hexadecimal: two digits for each, or `-` for no bytes.
pub fn from_hex(heap: Global, text: &[u8]) -> Result<Vec<u8>, LineFault>
    ensures { Gives vec_items (hex_bytes text.now) result }
{
    match *text {
        [] => Err(LineFault::Unknown),
        [b'-'] => Ok(Vec::new(heap)),
        _ => from_digits(heap, text),
    }
}

/// Two digits for each byte, the higher one first.
// On its own, so that one lemma proves it and no answer by hand names its steps: a changed body is judged by what it does.
#[tactic(auto, using(crate::proofs::Decoding::pairs_are))]
fn from_digits(heap: Global, digits: &[u8]) -> Result<Vec<u8>, LineFault>
    ensures { Gives vec_items (pairs digits.now) result }
{
    Ok(hex::decode(heap, digits)?)
}
