//! Pieces of lines that the library split, between separators of any length. Each expected answer was worked out by hand from
//! what the notation of cases says.
use bstr::ByteSlice;
use lines::{LineFault, entries, parts_of_filling, parts_of_slots};
use notation::{numbers, split_first};
use sheet::{Delimiter, EntryKind, Spacing, Store, Tree};
use spelled::{SpelledFault, spelled};
use std::test::*;
use table::{Slot, TextPlace};

/// The first two bytes of the sheet text, as a name with the stamp 5.
const NAME: Slot = Slot::Name {
    place: TextPlace {
        text: 0,
        offset: 0,
        length: 2,
    },
    stamp: 5,
};

const LAST: Slot = Slot::End { distance: 0 };

#[test]
fn numbers_are_one_in_each_part(rt: HostRuntime) {
    let listed = b"7, 0, 4294967295".as_slice();
    assert_eq!(rt;
        numbers::<3>(listed.split_str(b", ".as_slice())),
        Some([7, 0, 4294967295])
    );
    // Between commas alone, a blank stands in front of the second.
    assert_eq!(rt; numbers::<3>(listed.split_str(b",".as_slice())), None);
    assert_eq!(rt; numbers::<2>(listed.split_str(b", ".as_slice())), None);
    assert_eq!(rt; numbers::<4>(listed.split_str(b", ".as_slice())), None);
    assert_eq!(rt;
        numbers::<1>(b"4294967296".as_slice().split_str(b" ".as_slice())),
        None
    );
    // What was taken before is gone.
    let mut left = listed.split_str(b", ".as_slice());
    assert!(rt; left.next().is_some());
    assert_eq!(rt; numbers::<2>(left), Some([0, 4294967295]));
}

#[test]
fn the_first_part_and_the_others(rt: HostRuntime) {
    let (first, mut others) = split_first(b"N:0::5".as_slice(), b":");
    assert_eq!(rt; first, b"N".as_slice());
    assert_eq!(rt; others.next(), Some(b"0".as_slice()));
    assert_eq!(rt; others.next(), Some(b"".as_slice()));
    assert_eq!(rt; others.next(), Some(b"5".as_slice()));
    assert_eq!(rt; others.next(), None);
    let (first, mut others) = split_first(b"".as_slice(), b":");
    assert_eq!(rt; first, b"".as_slice());
    assert_eq!(rt; others.next(), None);
    let (first, mut others) = split_first(b"seal:".as_slice(), b":");
    assert_eq!(rt; first, b"seal".as_slice());
    assert_eq!(rt; others.next(), Some(b"".as_slice()));
    assert_eq!(rt; others.next(), None);
}

#[test]
fn entries_are_one_in_each_word(rt: HostRuntime) -> Result<(), Fail> {
    let words = b"N:0:0:2:5 | E:0".as_slice();
    let read = entries(rt.alloc(), words.split_str(b" | ".as_slice()));
    let read = read.map_err(|_| Fail::new("the entries are refused"))?;
    assert_eq!(rt; read.as_slice(), [NAME, LAST].as_slice());
    let read = entries(rt.alloc(), words.split_str(b" ".as_slice()));
    assert!(rt; matches!(read, Err(LineFault::Unknown)));
    Ok(())
}

#[test]
fn what_makes_a_table(rt: HostRuntime) -> Result<(), Fail> {
    let words = b"6162  -  N:0:0:2:5  E:0".as_slice();
    let parts = parts_of_slots(rt.alloc(), words.split_str(b"  ".as_slice()));
    let parts = parts.map_err(|_| Fail::new("the line of slots is refused"))?;
    assert_eq!(rt; parts.entries.as_slice(), [NAME, LAST].as_slice());
    assert_eq!(rt; parts.sheet.as_slice(), b"ab".as_slice());
    assert_eq!(rt; parts.template.as_slice(), b"".as_slice());
    let parts = parts_of_slots(rt.alloc(), b"6162".as_slice().split_str(b"  ".as_slice()));
    assert!(rt; matches!(parts, Err(LineFault::Unknown)));
    Ok(())
}

#[test]
fn what_a_filling_begins_with(rt: HostRuntime) -> Result<(), Fail> {
    let words = b"3  -  7A".as_slice();
    let parts = parts_of_filling(rt.alloc(), words.split_str(b"  ".as_slice()));
    let parts = parts.map_err(|_| Fail::new("the line of a filling is refused"))?;
    assert_eq!(rt; parts.entries.as_slice(), [LAST, LAST, LAST].as_slice());
    assert_eq!(rt; parts.sheet.as_slice(), b"".as_slice());
    assert_eq!(rt; parts.template.as_slice(), b"z".as_slice());
    let more = b"3  -  7A  -".as_slice();
    let parts = parts_of_filling(rt.alloc(), more.split_str(b"  ".as_slice()));
    assert!(rt; matches!(parts, Err(LineFault::Unknown)));
    Ok(())
}

#[test]
fn words_spell_a_sheet(rt: HostRuntime) -> Result<(), Fail> {
    let words = b"n:ab, (, p:+, )".as_slice();
    let sheet = spelled(rt.alloc(), words.split_str(b", ".as_slice()));
    let sheet = sheet.map_err(|_| Fail::new("the sheet is refused"))?;
    assert_eq!(rt; sheet.count(), 5);
    assert!(rt; matches!(sheet.token(0), Some(Tree::Name(b"ab"))));
    assert!(rt; matches!(sheet.token(1), Some(Tree::Group(Delimiter::Parenthesis))));
    assert!(rt; matches!(sheet.token(2), Some(Tree::Mark('+', Spacing::Alone))));
    assert_eq!(rt; sheet.kind(3), EntryKind::End);
    assert_eq!(rt; sheet.kind(4), EntryKind::End);
    // The brackets do not match.
    let sheet = spelled(rt.alloc(), b"(, ]".as_slice().split_str(b", ".as_slice()));
    assert!(rt; matches!(sheet, Err(SpelledFault::NotASheet)));
    Ok(())
}
