//! The layer over a store, and its refusal; into a group and out again.
ghost use Rattle.std.specs.Prelude.{◌≡◌, ◌+◌, ◌<◌, length};
ghost use Rattle.sheet.specs.Entries.{entries, at as entry_at};
ghost use Rattle.sheet.specs.Limits.{KeepsLimits};
ghost use Rattle.inside.specs.Opening.{OpensInside, GoesInside, contents_of, no_group_number};
ghost use Rattle.inside.specs.Unders.{entry_under, StandsUnder};

use crate::under::Under;
use sheet::{Entry, EntryKind, Store};
use std::cmp::Ordering;

/// The contents of the group at a place of the store below. Places in it count from 0, and the End of the group closes it.
#[derive(Drop)]
pub struct Inside<S> {
    pub(crate) below: S,
    pub(crate) place: usize,
}

/// No group stands at the place: the store is handed back.
#[derive(Drop)]
pub struct NoGroup<S> {
    pub below: S,
}

impl<S> NoGroup<S> {
    /// The refusal's number, as docs/REFUSALS.md lists it.
    // Not a `From`: the refusal holds the store, so only a borrowed one could be converted, which reads no plainer.
    pub fn number(&self) -> u8
        ensures { result ≡ no_group_number }
    {
        12
    }
}

impl<S: Store> Inside<S> {
    /// Goes into the group at a place of a store.
    pub fn open(below: S, place: usize) -> Result<Inside<S>, NoGroup<S>>
        ensures { OpensInside S.Store.sheet below place result }
    {
        if below.kind(place) == EntryKind::Group {
            Ok(Inside { below, place })
        } else {
            Err(NoGroup { below })
        }
    }

    /// Goes on into the group at a place of the contents. The store below stays the same, and so does the type: a program can
    /// go in as deep as it likes, and a question passes through one layer all the same.
    pub fn inside(mut self, place: usize) -> Result<Inside<S>, NoGroup<Inside<S>>>
        ensures { GoesInside S.Store.sheet self place result }
    {
        match self.under(place) {
            Some(Under::Below(under)) if self.below.kind(under) == EntryKind::Group => {
                self.place = under;
                Ok(self)
            }
            _ => Err(NoGroup { below: self }),
        }
    }

    /// The store below again.
    pub fn into_below(self) -> S
        ensures { result ≡ self.below }
    {
        let Inside { below, place: _ } = self;
        below
    }

    /// How many entries the contents have, the End of the group with them.
    #[inline(always)]
    pub(crate) fn span(&self) -> usize
        ensures limits { KeepsLimits (contents_of S.Store.sheet self.now) }
        ensures is { result ≡ length (entries (contents_of S.Store.sheet self.now)) }
        ensures fits { 1 < result → self.now.place + result < 65536 }
    {
        // What is known of the sheet below is known by its count.
        if self.place >= self.below.count() {
            return 1;
        }
        match self.below.entry(self.place) {
            Some(Entry::Group { distance, .. }) => distance,
            _ => 1,
        }
    }

    /// Where the entry at a place of the contents is kept, if there is one: every question asks this one.
    #[inline(always)]
    pub(crate) fn under(&self, at: usize) -> Option<Under>
        ensures is { entry_under (entries (S.Store.sheet self.now.below)) result ≡ entry_at (entries (contents_of S.Store.sheet self.now)) at }
        ensures place { StandsUnder self.now.place at result }
    {
        let last = self.span() - 1;
        match at.cmp(&last) {
            Ordering::Less => Some(Under::Below(self.place + 1 + at)),
            Ordering::Equal => Some(Under::Last),
            Ordering::Greater => None,
        }
    }
}
