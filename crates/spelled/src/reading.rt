//! The calls that words spell, and the texts in them.
ghost use Rattle.std.specs.Prelude.{◌≡◌, ◌≤◌, [], vec_len};
ghost use Rattle.sheet.specs.Numbers.{delimiter_number};
ghost use Rattle.notation.specs.Tokens.{piece};
ghost use Rattle.spelled.specs.Reading.{stack, Placed, Closed, Stepped, Reads};

use crate::fault::SpelledFault;
use filling::Call;
use notation::{SheetToken, TextParts, token};
use rules::MOST;
use sheet::Delimiter;
use std::alloc::Global;
use table::{LONGEST, TextPlace};

/// A group that is open: what its closing bracket has to be, and the stamp that it will have.
#[derive(Clone, Copy)]
pub struct Opened {
    pub closing: u32,
    pub delimiter: Delimiter,
}

/// The calls that words spell, and the text that the places in them lie in.
#[derive(Drop)]
pub struct Reading {
    pub calls: Vec<Call>,
    pub text: Vec<u8>,
}

/// What the next word is read in: the texts so far, one after another, and the groups that are open, the innermost last.
#[derive(Drop)]
struct Reader {
    text: Vec<u8>,
    groups: Vec<Opened>,
    ghost short: { vec_len text ≤ 65535 },
}

impl Reader {
    /// Puts a text behind those before it, and says where it stands.
    fn add_text(&mut self, more: &[u8]) -> Result<TextPlace, SpelledFault>
        ensures placed { Placed self.old.text more.now self.new.text result }
        ensures groups { self.new.groups ≡ self.old.groups }
    {
        if more.len() > LONGEST - self.text.len() {
            return Err(SpelledFault::Lawless);
        }
        let place = TextPlace {
            text: 0,
            offset: self.text.len() as u32,
            length: more.len() as u32,
        };
        self.text.extend_from_slice(more)?;
        Ok(place)
    }

    /// Ends the innermost group, whose bracket it has to be.
    fn close(&mut self, delimiter: Delimiter) -> Result<Call, SpelledFault>
        ensures closed { Closed (stack self.old.groups.items) (delimiter_number delimiter) (stack self.new.groups.items) result }
        ensures text { self.new.text ≡ self.old.text }
    {
        match self.groups.pop() {
            Some(opened) => if opened.delimiter == delimiter {
                Ok(Call::Close {
                    closing: opened.closing,
                })
            } else {
                Err(SpelledFault::NotASheet)
            },
            None => Err(SpelledFault::NotASheet),
        }
    }

    /// The call that a token at this place of the sheet stands for.
    fn call_of(&mut self, at: u32, token: SheetToken<'_>) -> Result<Call, SpelledFault>
        requires { at ≤ 65534 }
        ensures { Stepped at self.old.text (stack self.old.groups.items) (piece token.entry) self.new.text (stack self.new.groups.items) result }
    {
        let stamp = 4 * at + 1;
        match token {
            SheetToken::Name(bytes) => {
                let place = self.add_text(bytes)?;
                Ok(Call::Name { place, stamp })
            }
            SheetToken::Literal(bytes) => {
                let place = self.add_text(bytes)?;
                Ok(Call::Literal { place, stamp })
            }
            SheetToken::Mark { character, spacing } => Ok(Call::Mark {
                character,
                spacing: spacing as u32,
                stamp,
            }),
            SheetToken::Open(delimiter) => {
                self.groups.push(Opened {
                    closing: 4 * at + 3,
                    delimiter,
                })?;
                Ok(Call::Open {
                    delimiter: delimiter as u32,
                    whole: 4 * at + 4,
                    opening: 4 * at + 2,
                })
            }
            SheetToken::Close(delimiter) => self.close(delimiter),
        }
    }
}

/// Reads words from the first to the last. Without any there is nothing behind the first word of the line.
pub(crate) fn read<'a, P: TextParts<'a>>(heap: Global, words: P) -> Result<Reading, SpelledFault>
    ensures { Reads (P.left words) result }
{
    let mut words = words;
    let mut calls = Vec::new(heap);
    let mut reader = Reader {
        text: Vec::new(heap),
        groups: Vec::new(heap),
    };
    while let Some(word) = words.next_part() {
        // Each word is an entry, and the last End is none of them.
        if calls.len() >= MOST - 1 {
            return Err(SpelledFault::Lawless);
        }
        let token = token(word).ok_or(SpelledFault::NotASheet)?;
        let call = reader.call_of(calls.len() as u32, token)?;
        calls.push(call)?;
    }
    let Reader { text, groups } = reader;
    if groups.is_empty() {
        Ok(Reading { calls, text })
    } else {
        Err(SpelledFault::NotASheet)
    }
}
