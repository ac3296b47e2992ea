//! Fill calls.
ghost use Rattle.std.specs.Prelude.{◌≡◌};
ghost use Rattle.notation.specs.Calls.{seal_call, call_of};

use crate::fields::{marked, placed};
use crate::numerals::numbers_in;
use crate::parts::{Split, split_first_by};
use filling::Call;

/// The fill call that a question writes: its name, and its numbers behind single blanks.
pub fn call(question: &[u8]) -> Option<Call>
    ensures { result ≡ call_of question.now }
{
    let (verb, fields) = split_first_by(question, b' ');
    match verb {
        b"name" => {
            let (place, stamp) = placed(fields)?;
            Some(Call::Name { place, stamp })
        }
        b"mark" => {
            let (character, spacing, stamp) = marked(fields)?;
            Some(Call::Mark {
                character,
                spacing,
                stamp,
            })
        }
        b"literal" => {
            let (place, stamp) = placed(fields)?;
            Some(Call::Literal { place, stamp })
        }
        b"open" => {
            let [delimiter, whole, opening] = numbers_in::<3, _>(fields)?;
            Some(Call::Open {
                delimiter,
                whole,
                opening,
            })
        }
        b"close" => {
            let [closing] = numbers_in::<1, _>(fields)?;
            Some(Call::Close { closing })
        }
        b"seal" => seal(fields),
        _ => None,
    }
}

/// `seal` has nothing behind it.
fn seal(fields: Split<'_>) -> Option<Call>
    ensures { result ≡ seal_call fields.entry }
{
    let mut fields = fields;
    match fields.next() {
        None => Some(Call::Seal),
        Some(_) => None,
    }
}
