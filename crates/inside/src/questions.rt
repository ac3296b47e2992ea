//! What the contents of a group show.
ghost use Rattle.inside.specs.Opening.{contents_of};

use crate::inside::Inside;
use crate::under::Under;
use sheet::{Entry, Store};

impl<S: Store> Store for Inside<S> {
    type Stamp = S::Stamp;

    ghost sheet = { contents_of S.Store.sheet };

    ghost site = { S.Store.site };

    fn count(&self) -> usize {
        self.span()
    }

    // Inlined, so that a question works out no more of an entry than it answers.
    #[inline(always)]
    fn entry(&self, at: usize) -> Option<Entry<'_, S::Stamp>> {
        match self.under(at)? {
            Under::Below(place) => self.below.entry(place),
            Under::Last => Some(Entry::End { distance: 0 }),
        }
    }

    fn call_site(&self) -> S::Stamp {
        self.below.call_site()
    }
}
