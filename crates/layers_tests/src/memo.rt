// What a memo remembers.
use crate::calls::{called, divider, register};
use layers::{Memo, Quota};
use std::test::Fail;

#[test]
fn sixteen_lists_of_inputs_are_remembered(rt: HostRuntime) -> Result<(), Fail> {
    let mut memo = Memo::new(rt.alloc(), Quota::new(divider()?, 17))?;
    for input in 0..17 {
        assert_eq!(rt; called(&mut memo, input), Ok(1));
    }
    assert_eq!(rt; called(&mut memo, 0), Ok(1));
    assert_eq!(rt; called(&mut memo, 15), Ok(1));
    assert_eq!(rt; called(&mut memo, 16), Err((31, 1)));
    Ok(())
}

#[test]
fn eight_rows_are_remembered(rt: HostRuntime) -> Result<(), Fail> {
    let mut memo = Memo::new(rt.alloc(), Quota::new(register(rt.alloc(), 8)?, 1))?;
    assert_eq!(rt; called(&mut memo, 1), Ok(8));
    assert_eq!(rt; called(&mut memo, 1), Ok(8));
    assert_eq!(rt; called(&mut memo, 2), Err((31, 1)));
    Ok(())
}

#[test]
fn nine_rows_are_not(rt: HostRuntime) -> Result<(), Fail> {
    let mut memo = Memo::new(rt.alloc(), Quota::new(register(rt.alloc(), 9)?, 1))?;
    assert_eq!(rt; called(&mut memo, 1), Ok(9));
    assert_eq!(rt; called(&mut memo, 1), Err((31, 1)));
    Ok(())
}

#[test]
fn no_rows_are_an_answer_too(rt: HostRuntime) -> Result<(), Fail> {
    let mut memo = Memo::new(rt.alloc(), Quota::new(register(rt.alloc(), 1)?, 1))?;
    assert_eq!(rt; called(&mut memo, 7), Ok(0));
    assert_eq!(rt; called(&mut memo, 7), Ok(0));
    assert_eq!(rt; called(&mut memo, 1), Err((31, 1)));
    Ok(())
}

#[test]
fn a_refused_call_is_not_remembered(rt: HostRuntime) -> Result<(), Fail> {
    let mut memo = Memo::new(rt.alloc(), Quota::new(divider()?, 0))?;
    assert_eq!(rt; called(&mut memo, 5), Err((31, 1)));
    assert_eq!(rt; called(&mut memo, 5), Err((31, 1)));
    Ok(())
}
