//! A borrowed store is a store.
use crate::entry::Entry;
use crate::store::Store;

/// It has the sheet of the store that it borrows, so a layer over a store can be laid over a borrowed one and leave its owner
/// the store.
impl<'a, S: Store> Store for &'a S {
    type Stamp = S::Stamp;

    ghost sheet = { λ s. S.Store.sheet s.now };

    ghost site = { S.Store.site };

    fn count(&self) -> usize {
        (**self).count()
    }

    // Inlined, so that a question works out no more of an entry than it answers.
    #[inline(always)]
    fn entry(&self, at: usize) -> Option<Entry<'_, S::Stamp>> {
        (**self).entry(at)
    }

    fn call_site(&self) -> S::Stamp {
        (**self).call_site()
    }
}
