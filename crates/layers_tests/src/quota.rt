// What a quota lets through.
use crate::calls::{called, divider};
use layers::Quota;
use std::test::Fail;

#[test]
fn without_units_all_inputs_are_barred(rt: HostRuntime) -> Result<(), Fail> {
    let mut quota = Quota::new(divider()?, 0);
    assert_eq!(rt; called(&mut quota, 5), Err((31, 0)));
    assert_eq!(rt; quota.add(1), 1);
    assert_eq!(rt; called(&mut quota, 5), Ok(1));
    assert_eq!(rt; called(&mut quota, 5), Err((31, 0)));
    Ok(())
}

#[test]
fn more_than_a_million_units_are_lost(rt: HostRuntime) -> Result<(), Fail> {
    let mut full = Quota::new(divider()?, 1000000);
    assert_eq!(rt; full.add(1), 0);
    let mut over = Quota::new(divider()?, 1000001);
    assert_eq!(rt; over.add(1), 0);
    assert_eq!(rt; called(&mut over, 5), Ok(1));
    assert_eq!(rt; over.add(7), 1);
    Ok(())
}

#[test]
fn a_refused_call_takes_no_unit(rt: HostRuntime) -> Result<(), Fail> {
    let mut quota = Quota::new(Quota::new(divider()?, 0), 1);
    assert_eq!(rt; called(&mut quota, 5), Err((31, 1)));
    assert_eq!(rt; called(&mut quota, 5), Err((31, 1)));
    assert_eq!(rt; quota.add(1000000), 999999);
    Ok(())
}
