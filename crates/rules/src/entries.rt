//! What a make of entry has to show so that it can be judged.
ghost use Rattle.std.specs.Prelude.{◌≡◌, List, length};
ghost use Rattle.sheet.specs.Entries.{Entry, at as entry_at};
ghost use Rattle.rules.specs.Looks.{look_of};

use crate::look::Look;

/// Entries of any make, before it is known whether they are lawful. The meaning is the list of entries that they stand for.
pub trait Entries {
    type Stamp: Copy;

    ghost listed: { Self → List (Entry Self.Stamp) };

    fn len(&self) -> usize
        ensures { result ≡ length (listed self.now) };

    /// The entry at a place; none past the end, or if it is of a kind that nobody knows.
    fn look(&self, at: usize) -> Option<Look>
        ensures { result ≡ look_of (entry_at (listed self.now) at) };
}
