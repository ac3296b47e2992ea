//! The word that one entry adds to the text.
ghost use Rattle.std.specs.Prelude.{◌≡◌, option_map};
ghost use Rattle.sheet.specs.Entries.{entries, at as entry_at};
ghost use Rattle.sheet.specs.Numbers.{delimiter_number, spacing_number};
ghost use Rattle.report.specs.Spelling.{brackets_of, word_said, entry_said};
ghost use Rattle.report.specs.Writing.{gap_behind};

use crate::view::{View, Word};
use sheet::{Delimiter, Entry, Spacing, Store};

/// The gap behind a mark: none if it is joint; a `;` ends a line.
fn gap_after(character: char, spacing: Spacing) -> Option<char>
    ensures { result ≡ gap_behind character (spacing_number spacing) }
{
    match (character, spacing) {
        (_, Spacing::Joint) => None,
        (';', Spacing::Alone) => Some('\n'),
        (_, Spacing::Alone) => Some(' '),
    }
}

/// The two brackets of a group; the plain reading has none for an invisible group.
fn brackets(view: View, delimiter: Delimiter) -> Option<(char, char)>
    ensures { result ≡ brackets_of view (delimiter_number delimiter) }
{
    match (view, delimiter) {
        (View::Plain, Delimiter::Invisible) => None,
        (_, Delimiter::Invisible) => Some(('⟨', '⟩')),
        (_, Delimiter::Parenthesis) => Some(('(', ')')),
        (_, Delimiter::Brace) => Some(('{', '}')),
        (_, Delimiter::Bracket) => Some(('[', ']')),
    }
}

/// What the entry at a place adds to the text, if it adds anything.
pub(crate) fn word_at<S: Store>(store: &S, at: usize, view: View) -> Option<Word<'_>>
    ensures { option_map word_said result ≡ entry_said view (entries (S.Store.sheet store.now)) at (entry_at (entries (S.Store.sheet store.now)) at) }
{
    match store.entry(at)? {
        // Two arms of one text: the borrow checker does not cover an or-pattern here.
        Entry::Name { text, .. } => Some(Word::Text(text)),
        Entry::Literal { text, .. } => Some(Word::Text(text)),
        Entry::Mark {
            character,
            spacing,
            ..
        } => Some(Word::Sign(character, gap_after(character, spacing))),
        Entry::Group { delimiter, .. } => {
            let (opening, _) = brackets(view, delimiter)?;
            Some(Word::Sign(opening, Some(' ')))
        }
        Entry::End { distance: 0 } => None,
        Entry::End { distance } => {
            let delimiter = store.delimiter(at.saturating_sub(distance));
            let (_, closing) = brackets(view, delimiter)?;
            Some(Word::Sign(closing, Some(' ')))
        }
    }
}
