//! The packed sheet of the one name `a`, and every sheet that differs from it in one byte.
use packed::Packed;
use sheet::{Rule, Store, StoreFault, Tree};
use std::alloc::{AllocError, Global};
use std::process::Abort;
use std::test::Fail;

const NAME_A: [u8; 15] = [1, 2, 0, 1, 0, 4, 0, 0, 7, 0, 0, 0, 0, 1, 97];

/// What opening answers: a sheet of one name or literal, or a refusal.
// Not a `Result` of `StoreFault`: with that each row of the table below takes five lines and more.
#[derive(Clone, Copy, PartialEq, Eq, Debug)]
enum Answer {
    Name(u8),
    Literal(u8),
    Other,
    Frame,
    Rules(usize, Rule),
}

use Answer::*;

/// For each byte of the sheet, what its values from one to another (both counted) lead to; its own value is left out.
const TABLE: [(usize, u8, u8, Answer); 27] = [
    (0, 0, 0, Frame),
    (0, 2, 255, Frame),
    (1, 0, 1, Frame),
    (1, 3, 255, Frame),
    (2, 1, 255, Frame),
    (3, 0, 0, Rules(0, Rule::Text)),
    (3, 2, 255, Frame),
    (4, 1, 255, Frame),
    (5, 0, 3, Rules(1, Rule::Distance)),
    (5, 5, 5, Literal(97)),
    (5, 6, 6, Rules(0, Rule::Mark)),
    (5, 7, 7, Rules(0, Rule::EndTooEarly)),
    (5, 8, 255, Rules(0, Rule::UnknownKind)),
    (6, 1, 255, Rules(0, Rule::Text)),
    (7, 1, 255, Rules(0, Rule::Text)),
    (8, 0, 5, Rules(2, Rule::EndMissing)),
    (8, 6, 6, Rules(1, Rule::Mark)),
    (8, 8, 255, Rules(1, Rule::UnknownKind)),
    (9, 1, 255, Rules(1, Rule::Distance)),
    (10, 1, 255, Rules(1, Rule::Distance)),
    (11, 1, 255, Frame),
    (12, 1, 255, Frame),
    (13, 0, 0, Frame),
    (13, 2, 255, Frame),
    (14, 0, 96, Name(0)),
    (14, 97, 97, Name(0)),
    (14, 98, 255, Name(0)),
];

fn opened(bytes: Vec<u8>) -> Answer {
    match Packed::open(bytes) {
        Err(refused) => match refused.fault {
            StoreFault::Frame => Frame,
            StoreFault::Rules { place, rule } => Rules(place, rule),
        },
        Ok(sheet) => {
            if sheet.count() != 2 {
                return Other;
            }
            match sheet.token(0) {
                Some(Tree::Name(&[byte])) => Name(byte),
                Some(Tree::Literal(&[byte])) => Literal(byte),
                _ => Other,
            }
        }
    }
}

#[test]
fn it_is_the_name_a(rt: HostRuntime) -> Result<(), Fail> {
    assert_eq!(rt; opened(NAME_A.to_vec(rt.alloc())?), Name(97));
    Ok(())
}

#[test]
fn every_proper_beginning_is_refused(rt: HostRuntime) -> Result<(), Fail> {
    for n in 0..NAME_A.len() {
        let mut bytes = NAME_A.to_vec(rt.alloc())?;
        bytes.truncate(n);
        assert_eq!(rt; opened(bytes), Frame);
    }
    Ok(())
}

/// The sheet with one byte changed.
fn changed(heap: Global, at: usize, value: u8) -> Result<Vec<u8>, AllocError> {
    let mut bytes = NAME_A.to_vec(heap)?;
    if let Some(byte) = bytes.get_mut(at) {
        *byte = value;
    }
    Ok(bytes)
}

/// Tries one row of the table, and answers how many sheets that were.
fn row(
    rt: &impl Abort,
    heap: Global,
    at: usize,
    from: u8,
    to: u8,
    want: Answer,
) -> Result<u32, Fail> {
    let mut tried = 0u32;
    for value in from..=to {
        let want = match want {
            Name(_) => Name(value),
            other => other,
        };
        assert_eq!(rt; opened(changed(heap, at, value)?), want);
        tried = tried.saturating_add(1);
    }
    Ok(tried)
}

/// The table has every byte and every value once, the sheet itself with them.
#[test]
fn each_single_byte_changed(rt: HostRuntime) -> Result<(), Fail> {
    let mut tried = 0u32;
    for (at, from, to, want) in TABLE {
        tried = tried.saturating_add(row(&rt, rt.alloc(), at, from, to, want)?);
    }
    assert_eq!(rt; tried, 15 * 255 + 1);
    Ok(())
}
