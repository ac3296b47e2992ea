//! The judge's walk over the entries, one entry at a time.
ghost use Rattle.std.specs.Prelude.{◌≡◌, false, []};
ghost use Rattle.sheet.specs.Limits.{legal_mark, legal_text};
ghost use Rattle.rules.specs.Rules.{walk, step as step_rule, open_group as opening_rule, close as closing_rule, waits as waits_for, matches};
ghost use Rattle.rules.specs.Walks.{walk_of, next_of};

use crate::look::Look;
use crate::walk::{Next, Open, Walk};
use arrayvec::ArrayVec;
use sheet::Rule;

/// Whether a mark may have this character and this spacing. An apostrophe begins a lifetime, so it is never alone.
#[tactic(auto, unfolding(sheet::specs::Limits::legal_mark, sheet::specs::Limits::apostrophe))]
pub fn is_legal_mark(character: char, spacing: u32) -> bool
    ensures { result ≡ legal_mark character spacing }
{
    match character {
        '='
        | '<'
        | '>'
        | '!'
        | '~'
        | '+'
        | '-'
        | '*'
        | '/'
        | '%'
        | '^'
        | '&'
        | '|'
        | '@'
        | '.'
        | ','
        | ';'
        | ':'
        | '#'
        | '$'
        | '?' => spacing <= 1,
        '\'' => spacing == 1,
        _ => false,
    }
}

/// Whether a name or literal may have this text: 1 to 255 bytes.
#[tactic(auto, unfolding(sheet::specs::Limits::legal_text))]
pub fn is_legal_text(text: &[u8]) -> bool
    ensures { result ≡ legal_text text.now }
{
    !text.is_empty() && text.len() <= 255
}

#[tactic(auto, unfolding(crate::specs::Rules::matches))]
fn is_matching(at: usize, distance: usize, group: Open) -> bool
    ensures { result ≡ matches at distance group }
{
    distance == group.claims && group.from <= at && at - group.from == distance
}

impl Walk {
    pub(crate) fn new() -> Walk
        ensures { walk_of result ≡ walk false [] }
    {
        Walk {
            waiting: false,
            open_groups: ArrayVec::new(),
        }
    }

    /// Whether an apostrophe waits for its name and this is none.
    fn waits(&self, look: Option<Look>) -> bool
        ensures { result ≡ waits_for (walk_of self.now) look }
    {
        match look {
            Some(Look::Name { .. }) => false,
            _ => self.waiting,
        }
    }

    /// Takes the entry at a place.
    #[tactic(auto, unfolding(sheet::specs::Limits::apostrophe))]
    pub(crate) fn step(&mut self, at: usize, look: Option<Look>) -> Result<Next, Rule>
        ensures { next_of result (walk_of self.new) ≡ step_rule (walk_of self.old) at look }
    {
        if self.waits(look) {
            return Err(Rule::NameWanted);
        }
        match look.ok_or(Rule::UnknownKind)? {
            Look::Group {
                delimiter,
                distance,
            } => self.open(at, delimiter, distance),
            Look::Name { good: true } => {
                self.waiting = false;
                Ok(Next::On)
            }
            Look::Mark { character, spacing } if is_legal_mark(character, spacing) => {
                self.waiting = character == '\'';
                Ok(Next::On)
            }
            Look::Literal { good: true } => Ok(Next::On),
            Look::End { distance } => self.close(at, distance),
            Look::Mark { .. } => Err(Rule::Mark),
            Look::Name { good: false } | Look::Literal { good: false } => Err(Rule::Text),
        }
    }

    /// Takes a Group.
    fn open(&mut self, at: usize, delimiter: u32, distance: usize) -> Result<Next, Rule>
        ensures { next_of result (walk_of self.new) ≡ opening_rule (walk_of self.old) at delimiter distance }
    {
        // As the rule words it: which delimiter it is does not matter here.
        if delimiter > 3 {
            return Err(Rule::Delimiter);
        }
        let group = Open {
            from: at,
            claims: distance,
        };
        self.open_groups.try_push(group).map_err(|_| Rule::TooDeep)?;
        self.waiting = false;
        Ok(Next::On)
    }

    /// Takes an End.
    fn close(&mut self, at: usize, distance: usize) -> Result<Next, Rule>
        ensures { next_of result (walk_of self.new) ≡ closing_rule at distance (walk_of self.old).open_groups }
    {
        match self.open_groups.pop() {
            Some(group) if is_matching(at, distance, group) => {
                self.waiting = false;
                Ok(Next::On)
            }
            None if distance == 0 => Ok(Next::Done),
            _ => Err(Rule::Distance),
        }
    }
}
