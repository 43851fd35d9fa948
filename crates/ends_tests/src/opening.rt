// Every refusal of opening a file, at its place.
use crate::crowd::crowd;
use ends::Register;
use std::test::Fail;

// Opens a file: the number and the place of a refusal.
fn outcome(bytes: &[u8]) -> Result<(), (u8, u16)> {
    Register::new()
        .open(bytes)
        .map_err(|fault| (fault.refusal.number(), fault.detail))
}

#[test]
fn numbers_are_refused_where_they_start(rt: HostRuntime) {
    assert_eq!(rt; outcome(&[]), Err((41, 0)));
    assert_eq!(rt; outcome(&[0x80]), Err((41, 0)));
    assert_eq!(rt; outcome(&[0x82, 0x00]), Err((41, 0)));
    assert_eq!(rt; outcome(&[2]), Err((41, 1)));
    assert_eq!(rt; outcome(&[2, 1]), Err((41, 2)));
    assert_eq!(rt; outcome(&[2, 1, 1, 0xD1]), Err((41, 3)));
    assert_eq!(rt; outcome(&[2, 1, 1, 0xD1, 0x0F]), Err((41, 5)));
    assert_eq!(rt;
        outcome(&[1, 0, 1, 0xFF, 0xFF, 0xFF, 0xFF, 0x10]),
        Err((41, 3))
    );
    assert_eq!(rt; outcome(&[1, 0, 1, 0xFF, 0xFF, 0xFF, 0xFF, 0x0F]), Ok(()));
}

#[test]
fn header_values_are_refused_where_they_start(rt: HostRuntime) {
    assert_eq!(rt; outcome(&[0, 0, 0]), Err((42, 0)));
    assert_eq!(rt; outcome(&[5, 0, 0]), Err((42, 0)));
    assert_eq!(rt; outcome(&[2, 4, 0]), Err((42, 1)));
    assert_eq!(rt; outcome(&[4, 15, 0]), Err((42, 1)));
    assert_eq!(rt; outcome(&[4, 14, 0]), Ok(()));
    assert_eq!(rt; outcome(&[2, 1, 0x81, 0x08]), Err((42, 2)));
}

#[test]
fn rows_must_ascend(rt: HostRuntime) {
    assert_eq!(rt; outcome(&[2, 1, 2, 1, 1, 1, 1]), Err((43, 5)));
    assert_eq!(rt; outcome(&[2, 1, 2, 1, 2, 1, 1]), Err((43, 5)));
    assert_eq!(rt; outcome(&[2, 1, 2, 1, 1, 1, 2]), Ok(()));
}

#[test]
fn nothing_may_be_left_over(rt: HostRuntime) {
    assert_eq!(rt; outcome(&[2, 1, 1, 0xD1, 0x0F, 5]), Ok(()));
    assert_eq!(rt; outcome(&[2, 1, 1, 0xD1, 0x0F, 5, 9]), Err((45, 6)));
    assert_eq!(rt; outcome(&[1, 0, 0, 0]), Err((45, 3)));
}

#[test]
fn sixty_five_rows_for_one_input_are_too_many(rt: HostRuntime) -> Result<(), Fail> {
    assert_eq!(rt; outcome(&crowd(rt.alloc(), 64)?), Ok(()));
    let mut bytes = crowd(rt.alloc(), 65)?;
    assert_eq!(rt; outcome(&bytes), Err((44, 131)));
    bytes.push(0)?;
    assert_eq!(rt; outcome(&bytes), Err((45, 133)));
    Ok(())
}
