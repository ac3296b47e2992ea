//! One sheet for each rule that a packed sheet can break: the place and the rule.
use packed::Packed;
use sheet::{Rule, StoreFault};
use std::alloc::Global;
use std::process::Abort;
use std::test::Fail;

/// Each of the sheets is refused at its place by its rule.
fn break_rules(rt: &impl Abort, heap: Global, sheets: &[(&[u8], usize, Rule)]) -> Result<(), Fail> {
    for &(bytes, place, rule) in sheets {
        match Packed::open(bytes.to_vec(heap)?) {
            Ok(_) => return Err(Fail::new("the sheet is accepted")),
            Err(refused) => {
                assert_eq!(rt; refused.fault, StoreFault::Rules { place, rule });
                assert!(rt;
                    refused.given.as_slice() == bytes,
                    "the bytes are handed back"
                );
            }
        }
    }
    Ok(())
}

#[test]
fn kinds_marks_and_texts(rt: HostRuntime) -> Result<(), Fail> {
    break_rules(
        &rt,
        rt.alloc(),
        &[
            // the name a, an entry of kind 9, End 0
            (
                &[1, 3, 0, 1, 0, 4, 0, 0, 9, 0, 0, 7, 0, 0, 0, 0, 1, 97],
                1,
                Rule::UnknownKind,
            ),
            // the mark \ alone
            (&[1, 2, 0, 0, 0, 6, 92, 0, 7, 0, 0], 0, Rule::Mark),
            // the mark + with spacing 2
            (&[1, 2, 0, 0, 0, 6, 43, 2, 7, 0, 0], 0, Rule::Mark),
            // an apostrophe alone, and a name
            (
                &[1, 3, 0, 1, 0, 6, 39, 0, 4, 0, 0, 7, 0, 0, 0, 0, 1, 97],
                0,
                Rule::Mark,
            ),
            // an apostrophe, joint, and a literal
            (
                &[1, 3, 0, 1, 0, 6, 39, 1, 5, 0, 0, 7, 0, 0, 0, 0, 1, 49],
                1,
                Rule::NameWanted,
            ),
            // a name with pair 3, where there is one pair
            (
                &[1, 2, 0, 1, 0, 4, 3, 0, 7, 0, 0, 0, 0, 1, 97],
                0,
                Rule::Text,
            ),
        ],
    )
}

#[test]
fn ends(rt: HostRuntime) -> Result<(), Fail> {
    break_rules(
        &rt,
        rt.alloc(),
        &[
            // Group with distance 3, the name a, End 2, End 0
            (
                &[
                    1, 4, 0, 1, 0, 2, 3, 0, 4, 0, 0, 7, 2, 0, 7, 0, 0, 0, 0, 1, 97,
                ],
                2,
                Rule::Distance,
            ),
            // Group with distance 1, the name a, End 1, End 0
            (
                &[
                    1, 4, 0, 1, 0, 2, 1, 0, 4, 0, 0, 7, 1, 0, 7, 0, 0, 0, 0, 1, 97,
                ],
                2,
                Rule::Distance,
            ),
            // the last End with distance 1
            (&[1, 1, 0, 0, 0, 7, 1, 0], 0, Rule::Distance),
            // the name a, End 0, the name a, End 0
            (
                &[
                    1, 4, 0, 1, 0, 4, 0, 0, 7, 0, 0, 4, 0, 0, 7, 0, 0, 0, 0, 1, 97,
                ],
                1,
                Rule::EndTooEarly,
            ),
            // the name a, and nothing more
            (&[1, 1, 0, 1, 0, 4, 0, 0, 0, 0, 1, 97], 1, Rule::EndMissing),
            // no entries
            (&[1, 0, 0, 0, 0], 0, Rule::EndMissing),
        ],
    )
}
