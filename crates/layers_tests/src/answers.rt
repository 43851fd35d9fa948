// What stands in the memory of a list.
use listing::{AnswerList, clear_places};
use std::test::Fail;

#[test]
fn answers_stand_once_each_and_ascend(rt: HostRuntime) -> Result<(), Fail> {
    let mut memory = [9; 14];
    let list = AnswerList::over(&mut memory)
        .with(&[5, 0, 0, 0])
        .with(&[1, 2, 3, 4])
        .with(&[5, 0, 0, 0])
        .with(&[1, 2, 4, 0]);
    assert_eq!(rt; list.close(), Some(3));
    assert_eq!(rt; memory, [1, 2, 3, 4, 1, 2, 4, 0, 5, 0, 0, 0, 9, 9]);
    Ok(())
}

#[test]
fn answers_are_added_one_by_one(rt: HostRuntime) -> Result<(), Fail> {
    let mut memory = [9; 9];
    let mut list = AnswerList::over(&mut memory);
    for answer in &[[3, 0, 0, 1], [1, 0, 0, 2], [3, 0, 0, 1]] {
        list.add(answer);
    }
    assert_eq!(rt; list.close(), Some(2));
    assert_eq!(rt; memory, [1, 0, 0, 2, 3, 0, 0, 1, 9]);
    Ok(())
}

#[test]
fn one_too_many_is_told_to_the_end(rt: HostRuntime) -> Result<(), Fail> {
    let mut memory = [7; 9];
    let list = AnswerList::over(&mut memory)
        .with(&[2, 0, 0, 0])
        .with(&[3, 0, 0, 0])
        .with(&[1, 0, 0, 0])
        .with(&[3, 0, 0, 0]);
    assert_eq!(rt; list.close(), None);
    assert_eq!(rt; memory, [2, 0, 0, 0, 3, 0, 0, 0, 7]);
    Ok(())
}

#[test]
fn as_many_as_have_places_are_listed(rt: HostRuntime) -> Result<(), Fail> {
    let mut memory = [7; 8];
    let list = AnswerList::over(&mut memory)
        .with(&[2, 0, 0, 0])
        .with(&[1, 0, 0, 0])
        .with(&[2, 0, 0, 0]);
    assert_eq!(rt; list.close(), Some(2));
    let mut none = [7; 3];
    assert_eq!(rt; AnswerList::over(&mut none).close(), Some(0));
    assert_eq!(rt;
        AnswerList::over(&mut none).with(&[1, 0, 0, 0]).close(),
        None
    );
    assert_eq!(rt; none, [7, 7, 7]);
    Ok(())
}

#[test]
fn no_more_than_1024_places_are_cleared(rt: HostRuntime) -> Result<(), Fail> {
    let mut memory = [9; 4100];
    clear_places(&mut memory);
    assert_eq!(rt; memory[0], 0);
    assert_eq!(rt; memory[4095], 0);
    assert_eq!(rt; memory[4096], 9);
    let mut short = [9; 6];
    clear_places(&mut short);
    assert_eq!(rt; short, [0, 0, 0, 0, 9, 9]);
    Ok(())
}
