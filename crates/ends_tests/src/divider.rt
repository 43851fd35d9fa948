// What a divider answers.
use ends::Divider;
use source::{ANSWER_ROOM, Source};
use std::test::Fail;

#[test]
fn a_divisor_of_0_is_refused(rt: HostRuntime) {
    let refusal = Divider::new(0).err().map(|fault| fault.refusal.number());
    assert_eq!(rt; refusal, Some(46));
}

#[test]
fn quotient_and_remainder_are_answered(rt: HostRuntime) -> Result<(), Fail> {
    let mut memory = [9; ANSWER_ROOM];
    let mut divider = Divider::new(1000).map_err(|_| Fail::new("refused"))?;
    assert!(rt; divider.call(&[4294967295], &mut memory).is_ok());
    assert_eq!(rt; memory[0], 4294967295);
    assert_eq!(rt; memory[1], 4294967);
    assert_eq!(rt; memory[2], 295);
    assert_eq!(rt; memory[3], 9);
    Ok(())
}
