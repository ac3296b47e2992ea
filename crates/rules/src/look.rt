//! What the rules look at, and what they answer.
ghost use Rattle.std.specs.Prelude.{◌≡◌};
ghost use Rattle.rules.specs.Rules.{fault_of};

use sheet::{Rule, StoreFault};

/// One entry as the rules see it, whatever make it is of. The delimiter and the spacing are the numbers that somebody wrote:
/// whether they are legal is for the rules to say, so they are no enums yet.
#[derive(Clone, Copy, PartialEq, Eq, Debug)]
pub enum Look {
    Group { delimiter: u32, distance: usize },
    Name { good: bool },
    Mark { character: char, spacing: u32 },
    Literal { good: bool },
    End { distance: usize },
}

/// The first place that breaks a rule, and the rule; the place is the count where the last End is missing.
#[derive(Clone, Copy, PartialEq, Eq, Debug)]
pub struct Offence {
    pub place: usize,
    pub rule: Rule,
}

impl From<Offence> for StoreFault {
    ghost from_gives = { λ offence fault. fault ≡ fault_of offence };

    fn from(offence: Offence) -> StoreFault {
        StoreFault::Rules {
            place: offence.place,
            rule: offence.rule,
        }
    }
}
