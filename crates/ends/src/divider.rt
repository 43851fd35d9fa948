ghost use Rattle.std.specs.Prelude.{◌≡◌, ◌≤◌, MatchResult};
ghost use Rattle.faults.specs.declared.refusal.Refusal.TheVariants.{DivisorZero};
ghost use Rattle.faults.specs.Faults.{bare};
ghost use Rattle.ends.specs.Division.{division};
ghost use Rattle.ends.specs.Dividing;

use faults::{Fault, Refusal};
use source::{Mark, Source, admit};

// A source that divides by a number that is not 0: to a dividend it answers the quotient and the
// remainder.
#[derive(Drop)]
pub struct Divider {
    divisor: u32,
    ghost some: { 1 ≤ divisor },
}

impl Divider {
    // Refused where the divisor is 0.
    pub fn new(divisor: u32) -> Result<Divider, Fault>
        ensures made { MatchResult result (λ d. (d.divisor ≡ divisor) × (1 ≤ divisor)) (λ f. (f ≡ bare DivisorZero) × (divisor ≡ 0)) }
    {
        if divisor == 0 {
            return Err(Fault::bare(Refusal::DivisorZero));
        }
        Ok(Divider { divisor })
    }
}

impl Source for Divider {
    ghost meaning = { λ s. division s.divisor };

    ghost lawful = { λ s. Dividing.lawful s.divisor };

    fn marks(&self) -> &[Mark] {
        &[Mark::Given, Mark::Free, Mark::Free]
    }

    #[tactic(auto, using(crate::specs::Dividing::answered))]
    fn call(&mut self, inputs: &[u32], memory: &mut [u32]) -> Result<usize, Fault> {
        admit(self.marks(), inputs, memory.len())?;
        let dividend = inputs[0];
        memory[0] = dividend;
        memory[1] = dividend / self.divisor;
        memory[2] = dividend % self.divisor;
        Ok(1)
    }
}
