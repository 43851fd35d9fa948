// How faults are printed.
use crate::{Fault, Refusal};
use std::test::Fail;

#[test]
fn what_is_unknown_is_a_dash(rt: HostRuntime) -> Result<(), Fail> {
    let fault = Fault::bare(Refusal::DivisorZero);
    let shown = format!(in rt.alloc(); "{fault}")?;
    assert_eq!(rt;
        shown.as_str(),
        "refusal 46 layer - source - literal - detail -"
    );
    Ok(())
}

#[test]
fn each_number_stands_behind_its_name(rt: HostRuntime) -> Result<(), Fail> {
    let fault = Fault {
        refusal: Refusal::Spent,
        layer: 0,
        source: 1,
        literal: 7,
        detail: 4096,
    };
    let shown = format!(in rt.alloc(); "{fault}")?;
    assert_eq!(rt;
        shown.as_str(),
        "refusal 31 layer 0 source 1 literal 7 detail 4096"
    );
    Ok(())
}
