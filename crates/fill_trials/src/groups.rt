//! The contents of a group as a sheet of their own.
use inside::Inside;
use packed::{Packed, Side, Stamp};
use sheet::{Delimiter, EntryKind, Store, Tree, same_sheet};
use std::alloc::Global;
use std::process::Abort;
use std::test::*;

/// The packed form of `( a { b + } ) c`.
const SHEET: [u8; 44] = [
    1, 9, 0, 3, 0, 1, 6, 0, 4, 0, 0, 2, 3, 0, 4, 1, 0, 6, 43, 0, 7, 3, 0, 7, 6, 0, 4, 2, 0, 7, 0,
    0, 0, 0, 1, 1, 0, 1, 2, 0, 1, 97, 98, 99,
];

fn opened(heap: Global) -> Result<Packed, Fail> {
    Packed::open(SHEET.to_vec(heap)?).map_err(|_| Fail::new("the sheet is refused"))
}

/// What stands at a place as one letter: an End is `)`, and a blank is nothing.
fn letter<S: Store>(store: &S, at: usize) -> char {
    match store.token(at) {
        Some(Tree::Name(&[letter])) => char::from(letter),
        Some(Tree::Mark(character, _)) => character,
        Some(Tree::Group(Delimiter::Parenthesis)) => '(',
        Some(Tree::Group(Delimiter::Brace)) => '{',
        Some(_) => '?',
        None => match store.kind(at) {
            EntryKind::End => ')',
            EntryKind::Nothing => ' ',
            _ => '?',
        },
    }
}

/// A store has these entries and no more.
fn check_reads<S: Store>(rt: &impl Abort, store: &S, letters: &[char]) -> Result<(), Fail> {
    assert_eq!(rt; store.count(), letters.len());
    for (at, &wanted) in letters.iter().enumerate() {
        assert_eq!(rt; letter(store, at), wanted);
    }
    assert_eq!(rt; letter(store, letters.len()), ' ');
    Ok(())
}

fn start(place: u16) -> Stamp {
    Stamp {
        place,
        side: Side::Start,
    }
}

#[test]
fn the_contents_count_from_nought_and_keep_their_stamps(rt: HostRuntime) -> Result<(), Fail> {
    let sheet = opened(rt.alloc())?;
    check_reads(&rt, &sheet, &['(', 'a', '{', 'b', '+', ')', ')', 'c', ')'])?;
    let outer = Inside::open(&sheet, 0).map_err(|_| Fail::new("the group is not found"))?;
    check_reads(&rt, &outer, &['a', '{', 'b', '+', ')', ')'])?;
    assert_eq!(rt; outer.distance(1), 3);
    assert_eq!(rt; outer.distance(4), 3);
    assert_eq!(rt; outer.distance(5), 0);
    assert_eq!(rt; outer.stamps(0).whole, start(1));
    assert_eq!(rt; outer.stamps(1).opening, start(2));
    assert_eq!(rt;
        outer.stamps(1).closing,
        Stamp {
            place: 2,
            side: Side::Close,
        }
    );
    assert_eq!(rt; outer.stamps(5).closing, outer.call_site());
    assert_eq!(rt; outer.call_site(), sheet.call_site());
    Ok(())
}

/// The contents of the group in parentheses.
fn outer(heap: Global) -> Result<Inside<Packed>, Fail> {
    Inside::open(opened(heap)?, 0).map_err(|_| Fail::new("the outer group is not found"))
}

/// In by a layer over a layer, and in by one layer: the same contents, and the store below comes out again.
#[test]
fn two_ways_lead_further_in(rt: HostRuntime) -> Result<(), Fail> {
    let layered = Inside::open(outer(rt.alloc())?, 1).map_err(|_| Fail::new(
        "the inner group is not found",
    ))?;
    let straight = outer(rt.alloc())?
        .inside(1)
        .map_err(|_| Fail::new("the inner group is not found"))?;
    check_reads(&rt, &layered, &['b', '+', ')'])?;
    check_reads(&rt, &straight, &['b', '+', ')'])?;
    assert!(rt; same_sheet(&layered, &straight));
    for at in 0..4usize {
        assert_eq!(rt; layered.stamps(at).whole, straight.stamps(at).whole);
    }
    assert_eq!(rt; straight.stamps(1).whole, start(4));
    assert_eq!(rt; layered.into_below().into_below().count(), 9);
    assert!(rt; straight.into_below().into_bytes().as_slice() == SHEET.as_slice());
    Ok(())
}

#[test]
fn a_borrowed_store_is_entered_as_deep(rt: HostRuntime) -> Result<(), Fail> {
    let sheet = opened(rt.alloc())?;
    let outer = Inside::open(&sheet, 0).map_err(|_| Fail::new("the outer group is not found"))?;
    let inner = Inside::open(&outer, 1).map_err(|_| Fail::new("the inner group is not found"))?;
    check_reads(&rt, &inner, &['b', '+', ')'])
}

#[test]
fn elsewhere_stands_no_group_and_the_store_is_handed_back(rt: HostRuntime) -> Result<(), Fail> {
    for place in [1, 4, 5, 6, 8, 9, usize::MAX] {
        match Inside::open(opened(rt.alloc())?, place) {
            Ok(_) => Err(Fail::new("a group is found where none stands"))?,
            Err(refused) => {
                assert_eq!(rt; refused.number(), 12);
                assert!(rt; refused.below.into_bytes().as_slice() == SHEET.as_slice());
            }
        }
    }
    // and in the contents
    for place in [0, 2, 4, 5, 6, usize::MAX] {
        let sheet = opened(rt.alloc())?;
        let outer = Inside::open(&sheet, 0).map_err(|_| Fail::new("the group is not found"))?;
        match outer.inside(place) {
            Ok(_) => Err(Fail::new("a group is found where none stands"))?,
            Err(refused) => {
                assert_eq!(rt; refused.number(), 12);
                check_reads(&rt, &refused.below, &['a', '{', 'b', '+', ')', ')'])?;
            }
        }
    }
    Ok(())
}
