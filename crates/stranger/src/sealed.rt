ghost use Rattle.std.specs.Prelude.{◌≡◌, ◌^◌, ◌<◌};
ghost use Rattle.stranger.specs.Seals.{sealed_row};
ghost use Rattle.stranger.specs.Sealing;

use faults::{Fault, Refusal};
use source::{Mark, Source, admit};

// An end of one row, that refuses one key since what is stored for it does not verify.
#[derive(Drop)]
pub struct Sealed {
    key: u32,
    value: u32,
    broken: u32,
    ghost key_fits: { key < 2 ^ 32 },
    ghost value_fits: { value < 2 ^ 32 },
}

impl Sealed {
    pub fn new(key: u32, value: u32, broken: u32) -> Sealed
        ensures key { result.key ≡ key }
        ensures value { result.value ≡ value }
        ensures broken { result.broken ≡ broken }
    {
        Sealed { key, value, broken }
    }
}

impl Source for Sealed {
    ghost meaning = { λ s. sealed_row s.key s.value s.broken };

    ghost lawful = { λ s. Sealing.lawful s.key s.value s.broken s.key_fits s.value_fits };

    fn marks(&self) -> &[Mark] {
        &[Mark::Given, Mark::Free]
    }

    fn call(&mut self, inputs: &[u32], memory: &mut [u32]) -> Result<usize, Fault> {
        admit(self.marks(), inputs, memory.len())?;
        let asked = inputs[0];
        if asked == self.broken {
            return Err(Fault::layered(Refusal::Unverified, 0));
        }
        if asked != self.key {
            return Ok(0);
        }
        memory[0] = asked;
        memory[1] = self.value;
        Ok(1)
    }
}
