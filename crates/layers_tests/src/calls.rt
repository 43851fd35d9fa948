// How calls end, in a form that tests can compare.
use ends::{Divider, Register};
use ends_tests::crowd::crowd;
use source::{ANSWER_ROOM, Source};
use std::alloc::Global;
use std::test::Fail;

// How many rows a call with one input answers, or the number and the layer of its refusal.
pub(crate) fn called<S: Source>(source: &mut S, input: u32) -> Result<usize, (u8, u8)> {
    let mut memory = [0; ANSWER_ROOM];
    source
        .call(&[input], &mut memory)
        .map_err(|fault| (fault.refusal.number(), fault.layer))
}

// A divider of 1,000.
pub(crate) fn divider() -> Result<Divider, Fail> {
    Divider::new(1000).map_err(|_| Fail::new("no divider"))
}

// A register that has so many rows for the input 1.
pub(crate) fn register(heap: Global, rows: u8) -> Result<Register, Fail> {
    let bytes = crowd(heap, rows)?;
    let mut register = Register::new();
    register.open(&bytes).map_err(|_| Fail::new("not opened"))?;
    Ok(register)
}
