//! The tokens of a sheet.
ghost use Rattle.std.specs.Prelude.{◌≡◌};
ghost use Rattle.std.specs.Option.{option_map};
ghost use Rattle.sheet.specs.Numbers.{spacing_number};
ghost use Rattle.notation.specs.Tokens.{piece, bracket_of, mark_piece, text_piece, token_of};

use crate::parts::first_part;
use sheet::{Delimiter, Spacing};

/// What a word of a `sheet` line stands for.
#[derive(Clone, Copy)]
pub enum SheetToken<'a> {
    Name(&'a [u8]),
    Literal(&'a [u8]),
    Mark { character: char, spacing: Spacing },
    Open(Delimiter),
    Close(Delimiter),
}

/// The token that a word writes: a bracket, or a letter for its kind and behind a colon its text, which may hold colons.
pub fn token(word: &[u8]) -> Option<SheetToken<'_>>
    ensures { option_map piece result ≡ token_of word.now }
{
    let (kind, rest) = first_part(word, b':');
    match rest {
        Some(text) => text_token(kind, text),
        None => bracket(kind),
    }
}

fn text_token<'a>(kind: &[u8], text: &'a [u8]) -> Option<SheetToken<'a>>
    ensures { option_map piece result ≡ text_piece kind.now text.now }
{
    match kind {
        b"n" => Some(SheetToken::Name(text)),
        b"l" => Some(SheetToken::Literal(text)),
        b"p" => mark(text, Spacing::Alone),
        b"j" => mark(text, Spacing::Joint),
        _ => None,
    }
}

/// A mark is one byte.
fn mark(text: &[u8], spacing: Spacing) -> Option<SheetToken<'static>>
    ensures { option_map piece result ≡ mark_piece text.now (spacing_number spacing) }
{
    match text {
        [byte] => Some(SheetToken::Mark {
            character: *byte as char,
            spacing,
        }),
        _ => None,
    }
}

fn bracket(word: &[u8]) -> Option<SheetToken<'static>>
    ensures { option_map piece result ≡ bracket_of word.now }
{
    match word {
        b"<" => Some(SheetToken::Open(Delimiter::Invisible)),
        b">" => Some(SheetToken::Close(Delimiter::Invisible)),
        b"(" => Some(SheetToken::Open(Delimiter::Parenthesis)),
        b")" => Some(SheetToken::Close(Delimiter::Parenthesis)),
        b"{" => Some(SheetToken::Open(Delimiter::Brace)),
        b"}" => Some(SheetToken::Close(Delimiter::Brace)),
        b"[" => Some(SheetToken::Open(Delimiter::Bracket)),
        b"]" => Some(SheetToken::Close(Delimiter::Bracket)),
        _ => None,
    }
}
