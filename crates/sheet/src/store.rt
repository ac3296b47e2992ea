//! The interface of every place where a sheet is kept.
ghost use Rattle.std.specs.Prelude.{◌≡◌, length};
ghost use Rattle.sheet.specs.Trees.{Trees};
ghost use Rattle.sheet.specs.Entries.{entries, entry_of};
ghost use Rattle.sheet.specs.Limits.{KeepsLimits};
ghost use Rattle.sheet.specs.Numbers.{delimiter_number, spacing_number};
ghost use Rattle.sheet.specs.Questions.{entry_said, kind_of, distance_of, delimiter_of, character_of, spacing_of, text_of, stamps_of, token_of, token_said};

use crate::entry::Entry;
use crate::kind::{Delimiter, EntryKind, Spacing, Stamps};
use crate::tree::Tree;

/// A place where a sheet is kept. Its meaning is a sheet with stamps of a type of its own, and every question answers from
/// that sheet's flat form, alike each time. A question that does not fit the place answers 0, an empty text or the call site.
/// A store shows how many entries there are and what each one is; the other questions answer from that, the same for every
/// store.
pub trait Store {
    type Stamp: Copy;

    ghost sheet: { Self → Trees Self.Stamp };

    ghost site: { Self.Stamp };

    /// How many entries there are, the last End with them.
    fn count(&self) -> usize
        ensures limits { KeepsLimits (sheet self.now) }
        ensures is { result ≡ length (entries (sheet self.now)) };

    /// The entry at a place, or nothing past the last End.
    fn entry(&self, at: usize) -> Option<Entry<'_, Self::Stamp>>
        ensures { entry_said result ≡ entry_of (sheet self.now) at };

    /// The stamp of what was written nowhere.
    fn call_site(&self) -> Self::Stamp
        ensures { result ≡ site };

    fn kind(&self, at: usize) -> EntryKind
        ensures { result ≡ kind_of (entry_of (sheet self.now) at) }
    {
        match self.entry(at) {
            Some(Entry::Group { .. }) => EntryKind::Group,
            Some(Entry::Name { .. }) => EntryKind::Name,
            Some(Entry::Mark { .. }) => EntryKind::Mark,
            Some(Entry::Literal { .. }) => EntryKind::Literal,
            Some(Entry::End { .. }) => EntryKind::End,
            None => EntryKind::Nothing,
        }
    }

    /// From a Group to its End, and from an End back to its Group; 0 at the last End.
    fn distance(&self, at: usize) -> usize
        ensures { result ≡ distance_of (entry_of (sheet self.now) at) }
    {
        match self.entry(at) {
            Some(Entry::Group { distance, .. } | Entry::End { distance }) => distance,
            _ => 0,
        }
    }

    fn delimiter(&self, at: usize) -> Delimiter
        ensures { delimiter_number result ≡ delimiter_of (entry_of (sheet self.now) at) }
    {
        match self.entry(at) {
            Some(Entry::Group { delimiter, .. }) => delimiter,
            _ => Delimiter::Invisible,
        }
    }

    fn character(&self, at: usize) -> char
        ensures { result ≡ character_of (entry_of (sheet self.now) at) }
    {
        match self.entry(at) {
            Some(Entry::Mark { character, .. }) => character,
            _ => '\0',
        }
    }

    fn spacing(&self, at: usize) -> Spacing
        ensures { spacing_number result ≡ spacing_of (entry_of (sheet self.now) at) }
    {
        match self.entry(at) {
            Some(Entry::Mark { spacing, .. }) => spacing,
            _ => Spacing::Alone,
        }
    }

    fn text(&self, at: usize) -> &[u8]
        ensures { result.now ≡ text_of (entry_of (sheet self.now) at) }
    {
        match self.entry(at) {
            Some(Entry::Name { text, .. } | Entry::Literal { text, .. }) => text,
            _ => &[],
        }
    }

    fn stamps(&self, at: usize) -> Stamps<Self::Stamp>
        ensures { result ≡ stamps_of site (entry_of (sheet self.now) at) }
    {
        match self.entry(at) {
            Some(Entry::Group { stamps, .. }) => stamps,
            Some(
                Entry::Name { stamp, .. }
                | Entry::Mark { stamp, .. }
                | Entry::Literal { stamp, .. },
            ) => Stamps::alike(stamp),
            Some(Entry::End { .. }) | None => Stamps::alike(self.call_site()),
        }
    }

    /// The tree that begins at a place, or nothing at an End or beyond.
    fn token(&self, at: usize) -> Option<Tree<'_>>
        ensures { token_said result ≡ token_of (entry_of (sheet self.now) at) }
    {
        match self.entry(at)? {
            Entry::Name { text, .. } => Some(Tree::Name(text)),
            Entry::Literal { text, .. } => Some(Tree::Literal(text)),
            Entry::Mark {
                character,
                spacing,
                ..
            } => Some(Tree::Mark(character, spacing)),
            Entry::Group { delimiter, .. } => Some(Tree::Group(delimiter)),
            Entry::End { .. } => None,
        }
    }
}
