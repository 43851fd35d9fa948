// What a register answers.
use ends::Register;
use source::{ANSWER_ROOM, Source};
use std::test::Fail;

// The recall register of the cabinet.
const RECALL: [u8; 6] = [2, 1, 1, 0xD1, 0x0F, 5];

// The number with which a call is refused, if it is.
fn refusal<S: Source>(source: &mut S, inputs: &[u32], memory: &mut [u32]) -> Option<u8> {
    source
        .call(inputs, memory)
        .err()
        .map(|fault| fault.refusal.number())
}

// How many rows a call answers.
fn count<S: Source>(source: &mut S, inputs: &[u32], memory: &mut [u32]) -> Result<usize, Fail> {
    source
        .call(inputs, memory)
        .map_err(|_| Fail::new("refused"))
}

// A register of this file.
fn opened(bytes: &[u8]) -> Result<Register, Fail> {
    let mut register = Register::new();
    register.open(bytes).map_err(|_| Fail::new("not opened"))?;
    Ok(register)
}

#[test]
fn a_new_register_has_one_free_column_and_no_row(rt: HostRuntime) -> Result<(), Fail> {
    let mut register = Register::new();
    let mut memory = [9; ANSWER_ROOM];
    assert_eq!(rt; register.marks().len(), 1);
    assert_eq!(rt; count(&mut register, &[], &mut memory)?, 0);
    assert_eq!(rt; memory[0], 9);
    Ok(())
}

#[test]
fn a_refused_file_leaves_the_register(rt: HostRuntime) -> Result<(), Fail> {
    let mut register = opened(&RECALL)?;
    let mut memory = [9; ANSWER_ROOM];
    assert!(rt; register.open(&[2, 1, 1, 0xD1]).is_err());
    assert_eq!(rt; count(&mut register, &[2001], &mut memory)?, 1);
    assert_eq!(rt; memory[0], 2001);
    assert_eq!(rt; memory[1], 5);
    assert_eq!(rt; memory[2], 9);
    Ok(())
}

#[test]
fn the_answer_memory_has_256_numbers(rt: HostRuntime) -> Result<(), Fail> {
    let mut register = opened(&RECALL)?;
    let mut short = [9; 255];
    let mut enough = [9; ANSWER_ROOM];
    assert_eq!(rt; refusal(&mut register, &[2001], &mut short), Some(21));
    assert_eq!(rt; refusal(&mut register, &[], &mut short), Some(21));
    assert_eq!(rt; short[0], 9);
    assert_eq!(rt; refusal(&mut register, &[2001], &mut enough), None);
    Ok(())
}

#[test]
fn there_is_an_input_for_each_given_column(rt: HostRuntime) -> Result<(), Fail> {
    let mut register = opened(&RECALL)?;
    let mut memory = [9; ANSWER_ROOM];
    assert_eq!(rt; refusal(&mut register, &[], &mut memory), Some(23));
    assert_eq!(rt; refusal(&mut register, &[2001, 5], &mut memory), Some(23));
    assert_eq!(rt; memory[0], 9);
    Ok(())
}

#[test]
fn given_columns_that_stand_first_are_found_by_halving(rt: HostRuntime) -> Result<(), Fail> {
    let mut register = opened(&[2, 1, 5, 1, 1, 2, 1, 2, 3, 2, 4, 9, 1])?;
    let mut memory = [9; ANSWER_ROOM];
    assert_eq!(rt; count(&mut register, &[2], &mut memory)?, 3);
    assert_eq!(rt; memory[1], 1);
    assert_eq!(rt; memory[3], 3);
    assert_eq!(rt; memory[5], 4);
    assert_eq!(rt; memory[6], 9);
    assert_eq!(rt; count(&mut register, &[0], &mut memory)?, 0);
    assert_eq!(rt; count(&mut register, &[9], &mut memory)?, 1);
    assert_eq!(rt; count(&mut register, &[10], &mut memory)?, 0);
    Ok(())
}

#[test]
fn other_given_columns_are_found_too(rt: HostRuntime) -> Result<(), Fail> {
    let mut register = opened(&[2, 2, 3, 1, 7, 2, 8, 3, 7])?;
    let mut memory = [9; ANSWER_ROOM];
    assert_eq!(rt; count(&mut register, &[7], &mut memory)?, 2);
    assert_eq!(rt; memory[0], 1);
    assert_eq!(rt; memory[2], 3);
    assert_eq!(rt; memory[4], 9);
    Ok(())
}
