//! Whether two stores hold the same sheet.
ghost use Rattle.std.specs.Prelude.{◌≡◌, true, Decides};
ghost use Rattle.sheet.specs.Trees.{bare, plain as plain_reading};
ghost use Rattle.sheet.specs.Entries.{entries, bare_entry, at as entry_at};
ghost use Rattle.sheet.specs.Forms.{ReadBack, OneSheet, OwnSheet};

use crate::store::Store;

/// Whether two stores have the same entry at a place, stamps apart.
// The two stores stay two parameters: a struct of two references would say no more. Early returns, since as one chain of `&&`
// it was tried, and the proof did not close.
fn same_entry<S: Store, T: Store>(a: &S, b: &T, at: usize) -> bool
    ensures { Decides result (bare_entry (entry_at (entries (S.Store.sheet a.now)) at) ≡ bare_entry (entry_at (entries (T.Store.sheet b.now)) at)) }
{
    if a.kind(at) != b.kind(at) {
        return false;
    }
    if a.distance(at) != b.distance(at) {
        return false;
    }
    if a.delimiter(at) != b.delimiter(at) {
        return false;
    }
    if a.character(at) != b.character(at) {
        return false;
    }
    if a.spacing(at) != b.spacing(at) {
        return false;
    }
    a.text(at) == b.text(at)
}

/// Whether two stores of any make hold the same sheet, stamps apart: the same trees, invisible groups with them. Only the
/// flat forms are compared, and that decides it, since a nested sheet and its flat form determine each other.
pub fn same_sheet<S: Store, T: Store>(a: &S, b: &T) -> bool
    ensures nested { Decides result (bare (S.Store.sheet a.now) ≡ bare (T.Store.sheet b.now)) }
    ensures flat { Decides result (entries (bare (S.Store.sheet a.now)) ≡ entries (bare (T.Store.sheet b.now))) }
    ensures plain { result ≡ true → plain_reading (S.Store.sheet a.now) ≡ plain_reading (T.Store.sheet b.now) }
    ensures read_back { ReadBack S.Stamp }
    ensures one_sheet { OneSheet S.Stamp }
    ensures own_sheet { OwnSheet S.Stamp }
{
    are_same(a, b)
}

fn are_same<S: Store, T: Store>(a: &S, b: &T) -> bool
    ensures { Decides result (entries (bare (S.Store.sheet a.now)) ≡ entries (bare (T.Store.sheet b.now))) }
{
    let count = a.count();
    if count != b.count() {
        return false;
    }
    // A loop, since `all` was tried, and the proof did not close.
    for at in 0..count {
        if !same_entry(a, b, at) {
            return false;
        }
    }
    true
}
