//! A filling: a sheet is written into a table, call by call. The calls stand for `recursive_new` in syn's buffer.rs, which
//! flattens a whole token stream at once.
ghost use Rattle.std.specs.Prelude.{◌≡◌, ◌+◌, ◌<◌, false, if◌then◌else◌, min, length, slice_set, nat_le};
ghost use Rattle.std.specs.Result.{result_err};
ghost use Rattle.table.specs.Texts.{good_place};
ghost use Rattle.filling.specs.Causes.{nothing_to_close, too_deep, refusal};
ghost use Rattle.filling.specs.Filling.{state_after, closed, moved, entered, Fills};
ghost use Rattle.filling.specs.Progress.{progress, start};
ghost use Rattle.filling.specs.Runs.{WholeRuns};
ghost use Rattle.filling.specs.Tables.{AnyTable};
ghost use Rattle.filling.specs.declared.fault.FillFault.TheVariants.{Text as bad_text, TooShort as too_short};

mod calls;

use crate::call::{Call, State};
use crate::fault::FillFault;
use arrayvec::ArrayVec;
use rules::{DEEPEST, MOST, is_legal_mark};
use std::marker::Model;
use table::{Slot, TextPlace, Texts};

/// How far a sheet has been written: the state, the number of entries written, and the places of the open groups, the
/// innermost last. Table and texts are no part of it, nor one struct: the interface hands both to each call, and other ones may
/// be handed to the next.
#[derive(Debug, Drop)]
pub struct Filling {
    state: State,
    written: usize,
    groups: ArrayVec<usize, DEEPEST>,
}

// Clauses see the open groups the other way round, innermost first.
impl Model for Filling {
    ghost use Rattle.std.specs.Prelude.{reverse};
    ghost use Rattle.filling.specs.Progress.{Progress, progress, IsBounded};

    ghost Value = { Progress };

    ghost view = { λ f. progress f.state f.written (reverse f.groups.items) };

    ghost invariant = { λ f. IsBounded f.written f.groups.items };
}

impl Default for Filling {
    ghost is_default = { λ f. f ≡ start };

    fn default() -> Self {
        Filling::new()
    }
}

impl Filling {
    /// A filling of which nothing is written yet.
    pub fn new() -> Filling
        ensures { result ≡ start }
    {
        Filling {
            state: State::Open,
            written: 0,
            groups: ArrayVec::new(),
        }
    }

    /// Puts a call to the filling. It answers the place written, or changes nothing. Table and texts are handed to each call; on one
    /// table and unchanged texts, the calls up to `seal` leave the sheet that they tell.
    pub fn fill(
        &mut self,
        table: &mut [Slot],
        texts: Texts<'_>,
        call: Call,
    ) -> Result<usize, FillFault>
        ensures is { Fills texts.entry self.old table.old call result self.new table.new }
        ensures any_table { AnyTable texts.entry.sheet.now texts.entry.template.now self.old call }
        ensures runs { WholeRuns texts.entry.sheet.now texts.entry.template.now }
    {
        self.check(table.len(), texts, call)?;
        Ok(self.put(table, call))
    }

    /// Refuses a call by the first cause that it has.
    #[tactic(auto, unfolding(sheet::specs::Limits::apostrophe))]
    fn check(&self, len: usize, texts: Texts<'_>, call: Call) -> Result<(), FillFault>
        ensures { result_err result ≡ refusal texts.entry.sheet.now texts.entry.template.now len self.now call }
    {
        let open = self.groups.len();
        // Owed after the call: an End for each open group and the last End; and after an apostrophe its name.
        match (self.state, call) {
            // Three arms of one text below: the borrow checker does not cover an or-pattern here.
            (State::Sealed, _) => Err(FillFault::Sealed),
            (State::Open, Call::Name { place, .. }) => self.check_text(len, texts, place),
            (State::Waiting, Call::Name { place, .. }) => self.check_text(len, texts, place),
            (State::Waiting, _) => Err(FillFault::NameWanted),
            (State::Open, Call::Literal { place, .. }) => self.check_text(len, texts, place),
            (
                State::Open,
                Call::Mark {
                    character,
                    spacing,
                    ..
                },
            ) => {
                if !is_legal_mark(character, spacing) {
                    return Err(FillFault::Mark);
                }
                self.check_room(len, open + 1 + usize::from(character == '\''))
            }
            (State::Open, Call::Open { delimiter, .. }) => {
                // As the refusal words it: which delimiter it is does not matter here.
                if delimiter > 3 {
                    return Err(FillFault::Delimiter);
                }
                if self.groups.is_full() {
                    return Err(FillFault::TooDeep);
                }
                self.check_room(len, open + 2)
            }
            (State::Open, Call::Close { .. }) => {
                if open == 0 {
                    return Err(FillFault::NoGroup);
                }
                self.check_room(len, open)
            }
            (State::Open, Call::Seal) => {
                if open > 0 {
                    return Err(FillFault::GroupOpen);
                }
                self.check_room(len, 0)
            }
        }
    }

    /// Refuses a text place that is not good, and a table with no room for a name or literal.
    fn check_text(&self, len: usize, texts: Texts<'_>, place: TextPlace) -> Result<(), FillFault>
        ensures { result_err result ≡ (if good_place texts.entry.sheet.now texts.entry.template.now place then (if nat_le (self.now.written + 1 + (length self.now.groups + 1)) (min 65535 len) then None else Some too_short) else Some bad_text) }
    {
        if !texts.is_good(place) {
            return Err(FillFault::Text);
        }
        self.check_room(len, self.groups.len() + 1)
    }

    /// Refuses a table with no room for one more entry and those owed after it. Only its first 65,535 entries count.
    fn check_room(&self, len: usize, owed: usize) -> Result<(), FillFault>
        ensures { result_err result ≡ (if nat_le (self.now.written + 1 + owed) (min 65535 len) then None else Some too_short) }
    {
        if owed < len.min(MOST).saturating_sub(self.written) {
            Ok(())
        } else {
            Err(FillFault::TooShort)
        }
    }

    /// Does what an accepted call does, and answers the place written.
    fn put(&mut self, table: &mut [Slot], call: Call) -> usize
        requires room { self.old.written < min 65535 (length table.old) }
        requires closable { nothing_to_close self.old.groups call ≡ false }
        requires shallow { too_deep self.old.groups call ≡ false }
        ensures at { result ≡ self.old.written }
        ensures moved { self.new ≡ moved self.old call }
        ensures entered { table.new ≡ entered self.old call table.old }
    {
        match call {
            Call::Name { place, stamp } => {
                self.write(table, Slot::Name { place, stamp }, State::Open)
            }
            Call::Mark {
                character,
                spacing,
                stamp,
            } => {
                let mark = Slot::Mark {
                    character,
                    spacing,
                    stamp,
                };
                self.write(table, mark, state_behind(character))
            }
            Call::Literal { place, stamp } => {
                self.write(table, Slot::Literal { place, stamp }, State::Open)
            }
            Call::Open {
                delimiter,
                whole,
                opening,
            } => {
                let group = Slot::Group {
                    distance: 0,
                    delimiter,
                    whole,
                    opening,
                    closing: 0,
                };
                let at = self.write(table, group, State::Open);
                self.groups.push(at);
                at
            }
            Call::Close { closing } => {
                let group = self.groups.pop().unwrap();
                let distance = (self.written - group) as u32;
                table[group] = closed_at(table[group], distance, closing);
                self.write(table, Slot::End { distance }, State::Open)
            }
            Call::Seal => self.write(table, Slot::End { distance: 0 }, State::Sealed),
        }
    }

    /// Writes an entry at the next place, and moves on to the state behind it.
    fn write(&mut self, table: &mut [Slot], slot: Slot, state: State) -> usize
        requires { self.old.written < min 65535 (length table.old) }
        ensures at { result ≡ self.old.written }
        ensures moved { self.new ≡ progress state (self.old.written + 1) self.old.groups }
        ensures entered { table.new ≡ slice_set table.old self.old.written slot }
    {
        let at = self.written;
        table[at] = slot;
        self.state = state;
        self.written = at + 1;
        at
    }
}

/// After an apostrophe its name is waited for.
#[tactic(auto, unfolding(sheet::specs::Limits::apostrophe))]
fn state_behind(character: char) -> State
    ensures { result ≡ state_after character }
{
    if character == '\'' {
        State::Waiting
    } else {
        State::Open
    }
}

/// A Group with its distance and its closing stamp. Another table may be handed to `close` than to `open`; then the entry there
/// may be no Group, and is left as it is.
fn closed_at(slot: Slot, far: u32, stamp: u32) -> Slot
    ensures { result ≡ closed slot far stamp }
{
    match slot {
        Slot::Group {
            delimiter,
            whole,
            opening,
            ..
        } => Slot::Group {
            distance: far,
            delimiter,
            whole,
            opening,
            closing: stamp,
        },
        _ => slot,
    }
}
