//! How deep groups may nest.
use packed::Packed;
use sheet::{Rule, Store, StoreFault};
use std::alloc::{AllocError, Global};
use std::test::Fail;

/// Writes an entry: its kind and its value.
fn push_entry(bytes: &mut Vec<u8>, kind: u8, value: u16) -> Result<(), AllocError> {
    let [low, high] = value.to_le_bytes();
    bytes.extend_from_slice(&[kind, low, high])
}

/// The packed form of groups inside one another, the outermost first.
fn nested(heap: Global, depth: u8) -> Result<Vec<u8>, AllocError> {
    let [low, high] = (2 * u16::from(depth) + 1).to_le_bytes();
    let mut bytes = [1, low, high, 0, 0].to_vec(heap)?;
    for k in 0..depth {
        push_entry(&mut bytes, k % 4, 2 * u16::from(depth - k) - 1)?;
    }
    for k in 0..depth {
        push_entry(&mut bytes, 7, 2 * u16::from(k) + 1)?;
    }
    push_entry(&mut bytes, 7, 0)?;
    Ok(bytes)
}

#[test]
fn sixty_groups_pass_and_one_more_does_not(rt: HostRuntime) -> Result<(), Fail> {
    let sheet = Packed::open(nested(rt.alloc(), 60)?).map_err(|_| Fail::new(
        "60 groups are refused",
    ))?;
    assert_eq!(rt; sheet.count(), 121);
    match Packed::open(nested(rt.alloc(), 61)?) {
        Ok(_) => Err(Fail::new("61 groups pass")),
        Err(refused) => {
            assert_eq!(rt;
                refused.fault,
                StoreFault::Rules {
                    place: 60,
                    rule: Rule::TooDeep,
                }
            );
            Ok(())
        },
    }
}

#[test]
fn the_empty_sheet_is_one_entry_and_an_invisible_group_three(rt: HostRuntime) -> Result<(), Fail> {
    let empty = Packed::open(nested(rt.alloc(), 0)?).map_err(|_| Fail::new(
        "the empty sheet is refused",
    ))?;
    assert_eq!(rt; empty.count(), 1);
    let group = Packed::open(nested(rt.alloc(), 1)?).map_err(|_| Fail::new(
        "an invisible group is refused",
    ))?;
    assert_eq!(rt; group.count(), 3);
    assert_eq!(rt; group.distance(0), 1);
    assert_eq!(rt; group.distance(1), 1);
    assert_eq!(rt; group.distance(2), 0);
    Ok(())
}
