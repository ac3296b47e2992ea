//! What the words of the command line ask for.
use std::str::FromStr;

/// What the first word asks for.
#[derive(Clone, Copy)]
pub enum Verb {
    Help,
    Show,
}

/// A word that asks for nothing.
#[derive(Clone, Copy, Debug)]
pub struct UnknownVerb;

impl FromStr for Verb {
    type Err = UnknownVerb;

    ghost use Rattle.keysheet.specs.Verbs.{Asks};

    ghost from_str_gives = { Asks };

    fn from_str(word: &str) -> Result<Verb, UnknownVerb> {
        match word {
            "help" => Ok(Verb::Help),
            "show" => Ok(Verb::Show),
            _ => Err(UnknownVerb),
        }
    }
}
