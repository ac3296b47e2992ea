//! The flat rules: which lists of entries are the flat form of a sheet that keeps the limits. They are judged once, here,
//! for every make of entry.
#![tactic(auto)]

ghost use Rattle.std.specs.Prelude.{◌≡◌, false, [], length, IsOk, OnOk, IfErr};
ghost use Rattle.rules.specs.Rules.{verdict, walk, judge as judged};
ghost use Rattle.rules.specs.Verdicts.{OneLawfulSheet, SomeLawfulSheet, FirstOffence};

mod entries;
mod lawful;
mod look;
mod step;
mod walk;

pub use entries::Entries;
pub use lawful::Lawful;
pub use look::{Look, Offence};
use sheet::Rule;
pub use step::{is_legal_mark, is_legal_text};
pub use walk::DEEPEST;
use walk::{Next, Walk};

/// More entries than this are no sheet, and only so many entries of a table count.
pub const MOST: usize = 65535;

/// Judges entries from place 0 upward. What is judged lawful is the flat form of exactly one sheet that keeps the limits, and
/// the flat form of every such sheet is judged lawful. A place that offends is the first one.
pub fn judge<E: Entries>(entries: &E) -> Result<(), Offence>
    ensures is { result ≡ verdict (E.Entries.listed entries.now) }
    ensures means { OnOk result (OneLawfulSheet (E.Entries.listed entries.now)) }
    ensures first { IfErr result (λ o. FirstOffence (E.Entries.listed entries.now) o.place o.rule) }
    ensures every { SomeLawfulSheet (E.Entries.listed entries.now) → IsOk result }
{
    let count = entries.len();
    if count > MOST {
        return Err(Offence {
            place: 0,
            rule: Rule::TooMany,
        });
    }
    walked(entries, count)
}

/// The walk over all entries, from the first to the last End.
fn walked<E: Entries>(entries: &E, count: usize) -> Result<(), Offence>
    requires { count ≡ length (E.Entries.listed entries.now) }
    ensures { result ≡ judged (walk false []) 0 (E.Entries.listed entries.now) }
{
    let mut walk = Walk::new();
    // Entries of any make are shown by place: there is no slice to walk.
    for place in 0..count {
        match walk.step(place, entries.look(place)) {
            Ok(Next::On) => {}
            Ok(Next::Done) if place + 1 == count => return Ok(()),
            Ok(Next::Done) => {
                return Err(Offence {
                    place,
                    rule: Rule::EndTooEarly,
                });
            }
            Err(rule) => return Err(Offence { place, rule }),
        }
    }
    Err(Offence {
        place: count,
        rule: Rule::EndMissing,
    })
}
