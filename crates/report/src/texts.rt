//! The text of a sheet, written word by word.
ghost use Rattle.std.specs.Prelude.{◌≡◌, ◌++◌, IfOk, string_bytes, OnOk};
ghost use Rattle.sheet.specs.Plain.{NoneLeft, NothingElseChanged};
ghost use Rattle.report.specs.Spelling.{word_said};
ghost use Rattle.report.specs.Writing.{Appends, printable, escape, escaped, gap_bytes, viewed, written};

use crate::view::{View, Word};
use crate::words::word_at;
use sheet::Store;
use std::alloc::{AllocError, Global};

fn is_printable(byte: u8) -> bool
    ensures { result ≡ printable byte }
{
    matches!(byte, b' '..=b'~')
}

// Not `write!(out, "\\x{byte:02x}")`: tried, and a text of escapes takes two and a half times as long.
fn push_escape(out: &mut String, byte: u8) -> Result<(), AllocError>
    ensures { OnOk result (Appends out.old out.new (escape byte)) }
{
    out.push_str("\\x")?;
    out.push(char::from_digit(u32::from(byte / 16), 16).unwrap())?;
    out.push(char::from_digit(u32::from(byte % 16), 16).unwrap())?;
    Ok(())
}

/// A text, each byte escaped unless it is printable ASCII.
fn push_escaped(out: &mut String, text: &[u8]) -> Result<(), AllocError>
    ensures { OnOk result (Appends out.old out.new (escaped text.now)) }
{
    for byte in text {
        if is_printable(*byte) {
            out.push(char::from(*byte))?;
        } else {
            push_escape(out, *byte)?;
        }
    }
    Ok(())
}

/// Writes a word behind the gap that the words before it left, and answers the gap that it leaves.
fn push_word(
    out: &mut String,
    gap: Option<char>,
    word: Word<'_>,
) -> Result<Option<char>, AllocError>
    ensures bytes { OnOk result (Appends out.old out.new (gap_bytes gap ++ (word_said word.entry).bytes)) }
    ensures gap { IfOk result (λ g. g ≡ (word_said word.entry).gap) }
{
    if let Some(gap) = gap {
        out.push(gap)?;
    }
    match word {
        Word::Text(text) => {
            push_escaped(out, text)?;
            Ok(Some(' '))
        }
        Word::Sign(sign, behind) => {
            out.push(sign)?;
            Ok(behind)
        }
    }
}

/// The text of a sheet: all of it as it was filled, or its plain reading, in which no invisible group is left and nothing else
/// has changed.
#[tactic(auto, using(sheet::proofs::Plains::none_left, sheet::proofs::Plains::nothing_else_changed))]
pub fn text<S: Store>(heap: Global, store: &S, view: View) -> Result<String, AllocError>
    ensures is { IfOk result (λ s. string_bytes s ≡ written (viewed view (S.Store.sheet store.now))) }
    ensures none_left { NoneLeft S.Stamp }
    ensures nothing_else { NothingElseChanged S.Stamp }
{
    let mut out = String::new(heap);
    let mut gap = None;
    // A store is asked by place: there is no slice to walk.
    for at in 0..store.count() {
        if let Some(word) = word_at(store, at, view) {
            gap = push_word(&mut out, gap, word)?;
        }
    }
    Ok(out)
}
