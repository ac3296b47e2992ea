//! Filling a table call by call, and opening what was filled.
use filling::{Call, FillFault, Filling};
use sheet::{Delimiter, EntryKind, Rule, Spacing, Store, StoreFault};
use std::alloc::{AllocError, Global};
use std::process::Abort;
use std::test::*;
use table::{Parts, Slot, Table, TextPlace, Texts};

/// The sheet text `abc`.
const SHEET: [u8; 3] = [97, 98, 99];

/// The template text `xy7`.
const TEMPLATE: [u8; 3] = [120, 121, 55];

/// What stands in a table before anything is written. No call writes it.
const OLD: Slot = Slot::End { distance: 77 };

/// The letter a of the sheet text.
const A: TextPlace = TextPlace {
    text: 0,
    offset: 0,
    length: 1,
};

/// The letters bc of the sheet text, up to its end.
const BC: TextPlace = TextPlace {
    text: 0,
    offset: 1,
    length: 2,
};

/// The letters xy of the template text.
const XY: TextPlace = TextPlace {
    text: 1,
    offset: 0,
    length: 2,
};

/// The digit 7 of the template text.
const SEVEN: TextPlace = TextPlace {
    text: 1,
    offset: 2,
    length: 1,
};

/// One byte past the end of the sheet text.
const PAST: TextPlace = TextPlace {
    text: 0,
    offset: 2,
    length: 2,
};

const NAME_A: Call = Call::Name { place: A, stamp: 5 };

const NAME_PAST: Call = Call::Name {
    place: PAST,
    stamp: 5,
};

const LITERAL_A: Call = Call::Literal { place: A, stamp: 5 };

const LITERAL_PAST: Call = Call::Literal {
    place: PAST,
    stamp: 5,
};

const APOSTROPHE: Call = Call::Mark {
    character: '\'',
    spacing: 1,
    stamp: 6,
};

/// A letter is no mark.
const LETTER: Call = Call::Mark {
    character: 'a',
    spacing: 0,
    stamp: 6,
};

const GROUP: Call = Call::Open {
    delimiter: 1,
    whole: 7,
    opening: 8,
};

/// No delimiter has the number 4.
const FOUR: Call = Call::Open {
    delimiter: 4,
    whole: 7,
    opening: 8,
};

const CLOSE: Call = Call::Close { closing: 9 };

/// What a call answers: the place written, or the number of the refusal.
type Answer = Result<usize, u8>;

/// The answer, with its refusal by number.
fn number_refusal(answer: Result<usize, FillFault>) -> Answer {
    answer.map_err(|fault| u8::from(fault))
}

/// Puts a call by its name.
fn put(
    filling: &mut Filling,
    table: &mut [Slot],
    texts: Texts<'_>,
    call: Call,
) -> Result<usize, FillFault> {
    match call {
        Call::Name { place, stamp } => filling.name(table, texts, place, stamp),
        Call::Mark {
            character,
            spacing,
            stamp,
        } => filling.mark(table, texts, character, spacing, stamp),
        Call::Literal { place, stamp } => filling.literal(table, texts, place, stamp),
        Call::Open {
            delimiter,
            whole,
            opening,
        } => filling.open(table, texts, delimiter, whole, opening),
        Call::Close { closing } => filling.close(table, texts, closing),
        Call::Seal => filling.seal(table, texts),
    }
}

/// A filling, its table and its texts.
#[derive(Drop)]
struct Desk {
    filling: Filling,
    parts: Parts,
}

impl Desk {
    /// Nothing is written yet, and the table has so many entries.
    fn new(heap: Global, length: usize) -> Result<Desk, AllocError> {
        Ok(Desk {
            filling: Filling::new(),
            parts: Parts {
                entries: vec![in heap; OLD; length]?,
                sheet: SHEET.to_vec(heap)?,
                template: TEMPLATE.to_vec(heap)?,
            },
        })
    }

    fn put(&mut self, call: Call) -> Result<usize, FillFault> {
        let texts = Texts {
            sheet: self.parts.sheet.as_slice(),
            template: self.parts.template.as_slice(),
        };
        put(
            &mut self.filling,
            self.parts.entries.as_mut_slice(),
            texts,
            call,
        )
    }

    /// Puts a call. Accepted, it writes the next place; refused, it changes nothing.
    fn answers(
        &mut self,
        rt: &impl Abort,
        heap: Global,
        call: Call,
        want: Answer,
    ) -> Result<(), Fail> {
        let written = self.filling.written();
        let entries = self.parts.entries.as_slice().to_vec(heap)?;
        assert_eq!(rt; number_refusal(self.put(call)), want);
        match want {
            Ok(place) => {
                assert!(rt; written == place && self.filling.written() == place.saturating_add(1));
                Ok(())
            },
            Err(_) => {
                assert!(rt;
                    written == self.filling.written()
                        && self.parts.entries.as_slice() == entries.as_slice()
                );
                Ok(())
            },
        }
    }

    /// Puts calls one after another.
    fn run(&mut self, rt: &impl Abort, heap: Global, calls: &[(Call, Answer)]) -> Result<(), Fail> {
        for &(call, want) in calls {
            self.answers(rt, heap, call, want)?;
        }
        Ok(())
    }
}

/// Puts calls to a new filling, on a table of so many entries.
fn told(
    rt: &impl Abort,
    heap: Global,
    length: usize,
    calls: &[(Call, Answer)],
) -> Result<Desk, Fail> {
    let mut desk = Desk::new(heap, length)?;
    desk.run(rt, heap, calls)?;
    Ok(desk)
}

/// What was written, as a sheet.
fn opened(desk: Desk) -> Result<Table, Fail> {
    let Desk { filling, mut parts } = desk;
    parts.entries.truncate(filling.written());
    Table::open(parts).map_err(|_| Fail::new("what was written is no sheet"))
}

/// What a sheet answers at a place: a text by its first byte and its length, a group's stamps in the order whole, opening, closing.
#[derive(Clone, Copy, PartialEq, Eq, Debug)]
enum Seen {
    Group(Delimiter, usize, u32, u32, u32),
    Name(u8, usize, u32),
    Mark(char, Spacing, u32),
    Literal(u8, usize, u32),
    End(usize),
}

fn first(text: &[u8]) -> u8 {
    text.first().copied().unwrap_or(0)
}

fn shown_at(sheet: &Table, at: usize) -> Option<Seen> {
    let text = sheet.text(at);
    let stamps = sheet.stamps(at);
    Some(match sheet.kind(at) {
        EntryKind::Group => Seen::Group(
            sheet.delimiter(at),
            sheet.distance(at),
            stamps.whole,
            stamps.opening,
            stamps.closing,
        ),
        EntryKind::Name => Seen::Name(first(text), text.len(), stamps.whole),
        EntryKind::Mark => Seen::Mark(sheet.character(at), sheet.spacing(at), stamps.whole),
        EntryKind::Literal => Seen::Literal(first(text), text.len(), stamps.whole),
        EntryKind::End => Seen::End(sheet.distance(at)),
        EntryKind::Nothing => return None,
    })
}

/// A sheet has these entries and no more.
fn check_sheet(rt: &impl Abort, sheet: &Table, entries: &[Seen]) -> Result<(), Fail> {
    assert_eq!(rt; sheet.count(), entries.len());
    for (at, &seen) in entries.iter().enumerate() {
        assert_eq!(rt; shown_at(sheet, at), Some(seen));
    }
    assert_eq!(rt; shown_at(sheet, entries.len()), None);
    Ok(())
}

#[test]
fn a_table_of_three_has_room_for_one_empty_group(rt: HostRuntime) -> Result<(), Fail> {
    let desk = told(
        &rt,
        rt.alloc(),
        3,
        &[
            (GROUP, Ok(0)),
            (NAME_A, Err(9)),
            (GROUP, Err(9)),
            (CLOSE, Ok(1)),
            (NAME_A, Err(9)),
            (Call::Seal, Ok(2)),
        ],
    )?;
    check_sheet(
        &rt,
        &opened(desk)?,
        &[
            Seen::Group(Delimiter::Parenthesis, 1, 7, 8, 9),
            Seen::End(1),
            Seen::End(0),
        ],
    )
}

/// The table has room for 60 groups and no more, so a 61st would be too much for it as well.
fn sixty(rt: &impl Abort, heap: Global) -> Result<Desk, Fail> {
    let mut desk = Desk::new(heap, 121)?;
    for place in 0..60usize {
        desk.answers(rt, heap, GROUP, Ok(place))?;
    }
    // the delimiter is looked at before the depth
    desk.run(
        rt,
        heap,
        &[(GROUP, Err(8)), (FOUR, Err(5)), (NAME_A, Err(9))],
    )?;
    for place in 60..120usize {
        desk.answers(rt, heap, CLOSE, Ok(place))?;
    }
    desk.answers(rt, heap, Call::Seal, Ok(120))?;
    Ok(desk)
}

#[test]
fn sixty_groups_are_opened_and_one_more_is_not(rt: HostRuntime) -> Result<(), Fail> {
    let sheet = opened(sixty(&rt, rt.alloc())?)?;
    assert_eq!(rt; sheet.count(), 121);
    for place in 0..60usize {
        assert_eq!(rt;
            shown_at(&sheet, place),
            Some(Seen::Group(Delimiter::Parenthesis, 119 - 2 * place, 7, 8, 9))
        );
        assert_eq!(rt;
            shown_at(&sheet, 119 - place),
            Some(Seen::End(119 - 2 * place))
        );
    }
    assert_eq!(rt; shown_at(&sheet, 120), Some(Seen::End(0)));
    Ok(())
}

#[test]
fn the_empty_sheet_is_one_entry(rt: HostRuntime) -> Result<(), Fail> {
    told(&rt, rt.alloc(), 0, &[(Call::Seal, Err(9))])?;
    let desk = told(&rt, rt.alloc(), 1, &[(NAME_A, Err(9)), (Call::Seal, Ok(0))])?;
    check_sheet(&rt, &opened(desk)?, &[Seen::End(0)])
}

#[test]
fn an_empty_invisible_group_is_three_entries(rt: HostRuntime) -> Result<(), Fail> {
    let invisible = Call::Open {
        delimiter: 0,
        whole: 1,
        opening: 2,
    };
    let desk = told(
        &rt,
        rt.alloc(),
        3,
        &[(invisible, Ok(0)), (CLOSE, Ok(1)), (Call::Seal, Ok(2))],
    )?;
    check_sheet(
        &rt,
        &opened(desk)?,
        &[
            Seen::Group(Delimiter::Invisible, 1, 1, 2, 9),
            Seen::End(1),
            Seen::End(0),
        ],
    )
}

/// An apostrophe keeps room for its name too, and takes nothing else before it.
#[test]
fn an_apostrophe_waits_for_its_name(rt: HostRuntime) -> Result<(), Fail> {
    told(&rt, rt.alloc(), 2, &[(APOSTROPHE, Err(9))])?;
    let desk = told(
        &rt,
        rt.alloc(),
        5,
        &[
            (GROUP, Ok(0)),
            (APOSTROPHE, Ok(1)),
            (APOSTROPHE, Err(2)),
            (LETTER, Err(2)),
            (LITERAL_A, Err(2)),
            (GROUP, Err(2)),
            (CLOSE, Err(2)),
            (Call::Seal, Err(2)),
            (NAME_PAST, Err(4)),
            (NAME_A, Ok(2)),
            (CLOSE, Ok(3)),
            (Call::Seal, Ok(4)),
        ],
    )?;
    check_sheet(
        &rt,
        &opened(desk)?,
        &[
            Seen::Group(Delimiter::Parenthesis, 3, 7, 8, 9),
            Seen::Mark('\'', Spacing::Joint, 6),
            Seen::Name(97, 1, 5),
            Seen::End(3),
            Seen::End(0),
        ],
    )
}

/// A mark that is not legal, by its character and its spacing.
fn mark(character: char, spacing: u32) -> Call {
    Call::Mark {
        character,
        spacing,
        stamp: 1,
    }
}

/// A literal by its place: the text, the first byte and the length.
fn literal(text: u32, offset: u32, length: u32) -> Call {
    Call::Literal {
        place: TextPlace {
            text,
            offset,
            length,
        },
        stamp: 1,
    }
}

#[test]
fn each_refusal_leaves_filling_and_table_as_they_were(rt: HostRuntime) -> Result<(), Fail> {
    told(
        &rt,
        rt.alloc(),
        9,
        &[
            (LETTER, Err(3)),
            (mark('\\', 1), Err(3)),
            (mark('+', 2), Err(3)),
            (mark('\'', 0), Err(3)),
            (NAME_PAST, Err(4)),
            (LITERAL_PAST, Err(4)),
            (literal(1, 3, 1), Err(4)),
            (literal(0, 1, 0), Err(4)),
            (literal(2, 0, 1), Err(4)),
            (literal(u32::MAX, u32::MAX, u32::MAX), Err(4)),
            (FOUR, Err(5)),
            (CLOSE, Err(6)),
            (GROUP, Ok(0)),
            (Call::Seal, Err(7)),
            (CLOSE, Ok(1)),
            (CLOSE, Err(6)),
            (Call::Seal, Ok(2)),
            // a sealed filling takes no call, whatever else is wrong with it
            (NAME_A, Err(1)),
            (LETTER, Err(1)),
            (LITERAL_PAST, Err(1)),
            (FOUR, Err(1)),
            (CLOSE, Err(1)),
            (Call::Seal, Err(1)),
        ],
    )?;
    Ok(())
}

/// Where several causes hold, the lowest number is answered.
#[test]
fn a_short_table_is_the_last_cause(rt: HostRuntime) -> Result<(), Fail> {
    told(
        &rt,
        rt.alloc(),
        0,
        &[
            (LETTER, Err(3)),
            (NAME_PAST, Err(4)),
            (LITERAL_PAST, Err(4)),
            (FOUR, Err(5)),
            (CLOSE, Err(6)),
            (GROUP, Err(9)),
        ],
    )?;
    // the group stays open, and the table is shorter afterwards
    let mut desk = told(&rt, rt.alloc(), 3, &[(GROUP, Ok(0))])?;
    desk.parts.entries.truncate(1);
    desk.run(
        &rt,
        rt.alloc(),
        &[(Call::Seal, Err(7)), (CLOSE, Err(9)), (FOUR, Err(5))],
    )
}

/// `( a 'xy ) += 7 ⟨ [ ] ⟩ bc`
fn all_kinds(rt: &impl Abort, heap: Global) -> Result<Desk, Fail> {
    told(
        rt,
        heap,
        16,
        &[
            (
                Call::Open {
                    delimiter: 1,
                    whole: 10,
                    opening: 11,
                },
                Ok(0),
            ),
            (
                Call::Name {
                    place: A,
                    stamp: 12,
                },
                Ok(1),
            ),
            (APOSTROPHE, Ok(2)),
            (
                Call::Name {
                    place: XY,
                    stamp: 14,
                },
                Ok(3),
            ),
            (Call::Close { closing: 15 }, Ok(4)),
            (
                Call::Mark {
                    character: '+',
                    spacing: 1,
                    stamp: 16,
                },
                Ok(5),
            ),
            (
                Call::Mark {
                    character: '=',
                    spacing: 0,
                    stamp: 17,
                },
                Ok(6),
            ),
            (
                Call::Literal {
                    place: SEVEN,
                    stamp: 18,
                },
                Ok(7),
            ),
            (
                Call::Open {
                    delimiter: 0,
                    whole: 19,
                    opening: 20,
                },
                Ok(8),
            ),
            (
                Call::Open {
                    delimiter: 3,
                    whole: 21,
                    opening: 22,
                },
                Ok(9),
            ),
            (Call::Close { closing: 23 }, Ok(10)),
            (Call::Close { closing: 24 }, Ok(11)),
            (
                Call::Name {
                    place: BC,
                    stamp: 25,
                },
                Ok(12),
            ),
            (Call::Seal, Ok(13)),
        ],
    )
}

#[test]
fn what_was_told_opens_as_a_table(rt: HostRuntime) -> Result<(), Fail> {
    let sheet = opened(all_kinds(&rt, rt.alloc())?)?;
    check_sheet(
        &rt,
        &sheet,
        &[
            Seen::Group(Delimiter::Parenthesis, 4, 10, 11, 15),
            Seen::Name(97, 1, 12),
            Seen::Mark('\'', Spacing::Joint, 6),
            Seen::Name(120, 2, 14),
            Seen::End(4),
            Seen::Mark('+', Spacing::Joint, 16),
            Seen::Mark('=', Spacing::Alone, 17),
            Seen::Literal(55, 1, 18),
            Seen::Group(Delimiter::Invisible, 3, 19, 20, 24),
            Seen::Group(Delimiter::Bracket, 1, 21, 22, 23),
            Seen::End(1),
            Seen::End(3),
            Seen::Name(98, 2, 25),
            Seen::End(0),
        ],
    )?;
    // an End was written nowhere, so its stamp is the call site
    assert_eq!(rt; sheet.call_site(), 0);
    assert_eq!(rt; sheet.stamps(4).whole, 0);
    assert!(rt; sheet.into_parts().template.as_slice() == TEMPLATE.as_slice());
    Ok(())
}

/// The entries are refused by 10 at this place by this rule, and the parts come back as they were.
fn breaks(
    rt: &impl Abort,
    heap: Global,
    entries: &[Slot],
    place: usize,
    rule: Rule,
) -> Result<(), Fail> {
    let parts = Parts {
        entries: entries.to_vec(heap)?,
        sheet: SHEET.to_vec(heap)?,
        template: TEMPLATE.to_vec(heap)?,
    };
    match Table::open(parts) {
        Ok(_) => Err(Fail::new("the table is accepted")),
        Err(refused) => {
            assert_eq!(rt; refused.fault.number(), 10);
            assert_eq!(rt; refused.fault, StoreFault::Rules { place, rule });
            assert!(rt;
                refused.given.entries.as_slice() == entries
                    && refused.given.sheet.as_slice() == SHEET.as_slice()
                    && refused.given.template.as_slice() == TEMPLATE.as_slice()
            );
            Ok(())
        }
    }
}

/// A Group of this distance, not yet closed.
fn group(distance: u32) -> Slot {
    Slot::Group {
        distance,
        delimiter: 1,
        whole: 7,
        opening: 8,
        closing: 0,
    }
}

#[test]
fn a_broken_table_is_handed_back(rt: HostRuntime) -> Result<(), Fail> {
    let heap = rt.alloc();
    let last = Slot::End { distance: 0 };
    let bad = Slot::Literal {
        place: PAST,
        stamp: 1,
    };
    breaks(
        &rt,
        heap,
        &[group(1), Slot::End { distance: 1 }],
        2,
        Rule::EndMissing,
    )?;
    breaks(
        &rt,
        heap,
        &[group(2), Slot::End { distance: 1 }, last],
        1,
        Rule::Distance,
    )?;
    breaks(&rt, heap, &[bad, last], 0, Rule::Text)?;
    // a group that was not closed
    breaks(&rt, heap, &[group(0), OLD, last], 1, Rule::Distance)
}

/// `close` is handed another table than `open`, and no Group stands there; and then the first table again.
#[test]
fn another_table_is_harmless(rt: HostRuntime) -> Result<(), Fail> {
    let mut desk = told(&rt, rt.alloc(), 3, &[(GROUP, Ok(0))])?;
    let texts = Texts {
        sheet: &SHEET,
        template: &TEMPLATE,
    };
    let name = Slot::Name {
        place: XY,
        stamp: 4,
    };
    let mut other = [name; 3];
    assert_eq!(rt;
        number_refusal(desk.filling.fill(&mut other, texts, CLOSE)),
        Ok(1)
    );
    assert!(rt; other.as_slice() == [name, Slot::End { distance: 1 }, name].as_slice());
    desk.run(&rt, rt.alloc(), &[(Call::Seal, Ok(2))])?;
    assert!(rt;
        desk.parts.entries.as_slice() == [group(0), OLD, Slot::End { distance: 0 }].as_slice()
    );
    Ok(())
}

/// A shorter table is refused, and the table from before is taken again.
#[test]
fn a_shorter_table_later_is_harmless(rt: HostRuntime) -> Result<(), Fail> {
    let mut desk = told(&rt, rt.alloc(), 4, &[(GROUP, Ok(0)), (NAME_A, Ok(1))])?;
    let texts = Texts {
        sheet: &SHEET,
        template: &TEMPLATE,
    };
    let mut short = [OLD; 3];
    assert_eq!(rt;
        number_refusal(desk.filling.fill(&mut short, texts, CLOSE)),
        Err(9)
    );
    assert!(rt; short.as_slice() == [OLD; 3].as_slice());
    desk.run(&rt, rt.alloc(), &[(CLOSE, Ok(2)), (Call::Seal, Ok(3))])?;
    check_sheet(
        &rt,
        &opened(desk)?,
        &[
            Seen::Group(Delimiter::Parenthesis, 2, 7, 8, 9),
            Seen::Name(97, 1, 5),
            Seen::End(2),
            Seen::End(0),
        ],
    )
}

/// Of a longer table 65,535 entries count, the last for the End.
#[test]
fn a_long_table_is_filled_up_to_its_limit(rt: HostRuntime) -> Result<(), Fail> {
    let mut desk = Desk::new(rt.alloc(), 65540)?;
    for place in 0..65534usize {
        assert_eq!(rt; number_refusal(desk.put(NAME_A)), Ok(place));
    }
    desk.run(
        &rt,
        rt.alloc(),
        &[(NAME_A, Err(9)), (GROUP, Err(9)), (Call::Seal, Ok(65534))],
    )?;
    assert_eq!(rt; opened(desk)?.count(), 65535);
    Ok(())
}

/// Of a longer text 65,535 bytes count, and of these at most 255 are one text.
#[test]
fn a_long_text_is_read_up_to_its_limit(rt: HostRuntime) -> Result<(), Fail> {
    let long = vec![in rt.alloc(); 97u8; 65540]?;
    let texts = Texts {
        sheet: &SHEET,
        template: long.as_slice(),
    };
    for (offset, length, read) in [
        (65280, 255, 255),
        (65281, 255, 0),
        (65534, 1, 1),
        (65535, 1, 0),
        (0, 255, 255),
        (0, 256, 0),
    ] {
        let place = TextPlace {
            text: 1,
            offset,
            length,
        };
        assert_eq!(rt; texts.is_good(place), read > 0);
        assert_eq!(rt; texts.at(place).len(), read);
    }
    Ok(())
}
