//! Counting what a sheet holds.
ghost use Rattle.std.specs.Prelude.{◌≡◌, ◌<◌};
ghost use Rattle.sheet.specs.Questions.{token_said};
ghost use Rattle.report.specs.Counting.{counts_of};
ghost use Rattle.report.specs.Noting.{noted, Room};

use crate::counts::Counts;
use sheet::{Delimiter, Store, Tree};

impl Counts {
    /// One tree more, or none at an End.
    fn note(&mut self, token: Option<Tree<'_>>)
        requires { Room self.old }
        ensures { self.new ≡ noted self.old (token_said token.entry) }
    {
        match token {
            Some(Tree::Name(_)) => self.names += 1,
            Some(Tree::Literal(_)) => self.literals += 1,
            Some(Tree::Mark(_, _)) => self.marks += 1,
            Some(Tree::Group(Delimiter::Invisible)) => {
                self.groups += 1;
                self.invisible += 1;
            }
            Some(Tree::Group(_)) => self.groups += 1,
            None => {}
        }
    }
}

/// Counts what a sheet holds.
pub fn tally<S: Store>(store: &S) -> Counts
    ensures { result ≡ counts_of (S.Store.sheet store.now) }
{
    let entries = store.count();
    let mut counts = Counts {
        entries,
        groups: 0,
        invisible: 0,
        names: 0,
        literals: 0,
        marks: 0,
    };
    // A store is asked by place: there is no slice to walk.
    for at in 0..entries {
        counts.note(store.token(at));
    }
    counts
}
