// Sources side by side.
use crate::calls::{divider, register};
use layers::{Beside, One, Quota};
use source::{ANSWER_ROOM, Rack};
use std::test::Fail;

// How many rows a call answers, or the number, the layer and the source of its refusal.
fn called<R: Rack>(
    rack: &mut R,
    source: usize,
    inputs: &[u32],
    memory: &mut [u32],
) -> Result<usize, (u8, u8, u8)> {
    rack.call(source, inputs, memory).map_err(|fault| (
        fault.refusal.number(),
        fault.layer,
        fault.source,
    ))
}

#[test]
fn sources_are_numbered_from_0(rt: HostRuntime) -> Result<(), Fail> {
    let mut memory = [9; ANSWER_ROOM];
    let mut rack = Beside(
        register(rt.alloc(), 2)?,
        Beside(Quota::new(divider()?, 1), One(divider()?)),
    );
    assert_eq!(rt; rack.count(), 3);
    assert_eq!(rt; called(&mut rack, 1, &[2001], &mut memory), Ok(1));
    assert_eq!(rt; memory[1], 2);
    assert_eq!(rt; called(&mut rack, 1, &[2001], &mut memory), Err((31, 0, 1)));
    assert_eq!(rt; called(&mut rack, 2, &[2001], &mut memory), Ok(1));
    assert_eq!(rt; called(&mut rack, 0, &[1], &mut memory), Ok(2));
    assert_eq!(rt; memory[0], 1);
    Ok(())
}

#[test]
fn a_source_that_is_not_there_is_refused(rt: HostRuntime) -> Result<(), Fail> {
    let mut memory = [9; ANSWER_ROOM];
    let mut short = [9; 255];
    let mut rack = Beside(divider()?, One(divider()?));
    assert_eq!(rt;
        called(&mut rack, 2, &[1], &mut memory),
        Err((23, 255, 255))
    );
    assert_eq!(rt; called(&mut rack, 2, &[1], &mut short), Err((21, 0, 255)));
    assert_eq!(rt; called(&mut rack, 1, &[1], &mut short), Err((21, 0, 1)));
    assert_eq!(rt; called(&mut rack, 1, &[], &mut memory), Err((23, 0, 1)));
    assert!(rt; rack.marks(2).is_none());
    assert!(rt; rack.marks(1).is_some());
    Ok(())
}
