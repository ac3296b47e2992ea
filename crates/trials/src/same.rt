//! When two stores hold the same sheet.
use packed::Packed;
use sheet::same_sheet;
use std::alloc::Global;
use std::test::Fail;

/// Whether the two packed sheets are the same one.
fn same(heap: Global, a: &[u8], b: &[u8]) -> Result<bool, Fail> {
    match (Packed::open(a.to_vec(heap)?), Packed::open(b.to_vec(heap)?)) {
        (Ok(a), Ok(b)) => Ok(same_sheet(&a, &b)),
        _ => Err(Fail::new("a sheet is refused")),
    }
}

#[test]
fn pairs_and_gaps_do_not_matter_but_invisible_groups_do(rt: HostRuntime) -> Result<(), Fail> {
    let heap = rt.alloc();
    let name_a: [u8; 15] = [1, 2, 0, 1, 0, 4, 0, 0, 7, 0, 0, 0, 0, 1, 97];
    // the name a from the second of two pairs, with a gap between them in the text
    let other_pair: [u8; 20] = [
        1, 2, 0, 2, 0, 4, 1, 0, 7, 0, 0, 0, 0, 1, 2, 0, 1, 120, 45, 97,
    ];
    let name_b: [u8; 15] = [1, 2, 0, 1, 0, 4, 0, 0, 7, 0, 0, 0, 0, 1, 98];
    let literal_a: [u8; 15] = [1, 2, 0, 1, 0, 5, 0, 0, 7, 0, 0, 0, 0, 1, 97];
    // the name a in an invisible group
    let filled_in: [u8; 21] = [
        1, 4, 0, 1, 0, 0, 2, 0, 4, 0, 0, 7, 2, 0, 7, 0, 0, 0, 0, 1, 97,
    ];
    assert!(rt; same(heap, &name_a, &other_pair)?);
    assert!(rt; !same(heap, &name_a, &name_b)?);
    assert!(rt; !same(heap, &name_a, &literal_a)?);
    assert!(rt; !same(heap, &name_a, &filled_in)?);
    Ok(())
}
