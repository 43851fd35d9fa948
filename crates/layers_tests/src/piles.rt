// Six layers in several mixtures.
use crate::calls::{called, divider};
use layers::{Memo, Quota};
use std::test::Fail;

#[test]
fn six_quotas_bar_where_the_units_end(rt: HostRuntime) -> Result<(), Fail> {
    let inner = Quota::new(Quota::new(Quota::new(divider()?, 0), 9), 9);
    let mut pile = Quota::new(Quota::new(Quota::new(inner, 9), 9), 9);
    assert_eq!(rt; called(&mut pile, 5), Err((31, 5)));
    Ok(())
}

#[test]
fn a_memo_in_the_middle_spares_what_is_below(rt: HostRuntime) -> Result<(), Fail> {
    let inner = Quota::new(Quota::new(divider()?, 1), 1);
    let middle = Memo::new(rt.alloc(), Memo::new(rt.alloc(), inner)?)?;
    let mut pile = Quota::new(Quota::new(middle, 3), 2);
    assert_eq!(rt; called(&mut pile, 5), Ok(1));
    assert_eq!(rt; called(&mut pile, 5), Ok(1));
    assert_eq!(rt; called(&mut pile, 5), Err((31, 0)));
    Ok(())
}

#[test]
fn memos_and_quotas_by_turns(rt: HostRuntime) -> Result<(), Fail> {
    let lowest = Memo::new(rt.alloc(), Quota::new(divider()?, 1))?;
    let middle = Memo::new(rt.alloc(), Quota::new(lowest, 2))?;
    let mut pile = Memo::new(rt.alloc(), Quota::new(middle, 3))?;
    assert_eq!(rt; called(&mut pile, 5), Ok(1));
    assert_eq!(rt; called(&mut pile, 5), Ok(1));
    assert_eq!(rt; called(&mut pile, 6), Err((31, 5)));
    Ok(())
}
