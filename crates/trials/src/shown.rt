//! What is said of a sheet that is refused.
use sheet::{Rule, StoreFault};
use std::test::Fail;

#[test]
fn a_refusal_is_explained_with_its_number_and_place(rt: HostRuntime) -> Result<(), Fail> {
    let frame = report::explain(rt.alloc(), StoreFault::Frame)?;
    assert!(rt; frame.as_str().starts_with("refused by 11: "));
    let rules = report::explain(
        rt.alloc(),
        StoreFault::Rules {
            place: 34,
            rule: Rule::Distance,
        },
    )?;
    assert!(rt;
        rules.as_str().starts_with(
            "refused by 10 at place 34: the distance of this End does not match",
        )
    );
    Ok(())
}
