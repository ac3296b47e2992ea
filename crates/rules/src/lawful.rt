//! Entries that were judged lawful.
ghost use Rattle.std.specs.Prelude.{◌≡◌, true, length, IsOk, MatchResult};
ghost use Rattle.sheet.specs.Entries.{entries as flat_form, tree};
ghost use Rattle.sheet.specs.Limits.{KeepsLimits};
ghost use Rattle.rules.specs.Rules.{verdict, is_lawful};
ghost use Rattle.rules.specs.Verdicts.{Refuses, OneLawfulSheet, SomeLawfulSheet};

use crate::entries::Entries;
use crate::judge;
use sheet::Refused;

/// Entries that are the flat form of a sheet which keeps the limits.
#[derive(Drop)]
pub struct Lawful<E: Entries> {
    pub(crate) entries: E,
    ghost lawful: { is_lawful (verdict (E.Entries.listed entries)) ≡ true },
}

impl<E: Entries> Lawful<E> {
    /// The entries, if they are lawful; else they are handed back with the reason.
    pub fn new(entries: E) -> Result<Lawful<E>, Refused<E>>
        ensures is { MatchResult result (λ l. (l.entries ≡ entries) × OneLawfulSheet (E.Entries.listed entries)) (λ r. Refuses (E.Entries.listed entries) r.fault × (r.given ≡ entries)) }
        ensures every { SomeLawfulSheet (E.Entries.listed entries) → IsOk result }
    {
        match judge(&entries) {
            Ok(()) => Ok(Lawful { entries }),
            Err(offence) => Err(Refused {
                fault: offence.into(),
                given: entries,
            }),
        }
    }

    /// The entries.
    pub fn entries(&self) -> &E
        ensures { result.now ≡ self.now.entries }
    {
        &self.entries
    }

    /// How many entries there are: as many as the flat form of their sheet has.
    pub fn count(&self) -> usize
        ensures sheet { OneLawfulSheet (E.Entries.listed self.now.entries) }
        ensures is { result ≡ length (flat_form (tree (E.Entries.listed self.now.entries))) }
    {
        self.entries.len()
    }

    /// The entries again.
    pub fn into_entries(self) -> E
        ensures { result ≡ self.entries }
    {
        let Lawful { entries } = self;
        entries
    }
}
