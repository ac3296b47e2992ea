//! The first word of a question.
ghost use Rattle.std.specs.Prelude.{◌≡◌};
ghost use Rattle.notation.specs.Parts.{front, behind, parts_left};
ghost use Rattle.fill_cases.specs.Verbs.{verb_of};

use notation::{Split, split_first_by};

/// What a question asks for, by its first word.
#[derive(Clone, Copy, PartialEq, Eq, Debug)]
pub enum Verb {
    Packed,
    Slots,
    Sheet,
    Filling,
    Inside,
    Table,
    Cut,
    Read,
    /// Another word: a fill call, or nothing that is known.
    // A case and no None: a filling reads such a question as a fill call, and each match would wrap the eight others in `Some`.
    Other,
}

impl<'a> From<&'a [u8]> for Verb {
    ghost from_gives = { λ word r. r ≡ verb_of word.now };

    fn from(word: &'a [u8]) -> Verb {
        match word {
            b"packed" => Verb::Packed,
            b"slots" => Verb::Slots,
            b"sheet" => Verb::Sheet,
            b"filling" => Verb::Filling,
            b"inside" => Verb::Inside,
            b"table" => Verb::Table,
            b"cut" => Verb::Cut,
            b"read" => Verb::Read,
            _ => Verb::Other,
        }
    }
}

/// What a question asks for, and the words behind its first.
pub(crate) fn asked(question: &[u8]) -> (Verb, Split<'_>)
    ensures verb { result.0 ≡ verb_of (front 32 question.now) }
    ensures rest { result.1 ≡ parts_left 32 (behind 32 question.now) }
{
    let (word, rest) = split_first_by(question, b' ');
    (Verb::from(word), rest)
}
