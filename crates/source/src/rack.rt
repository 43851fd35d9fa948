ghost use Rattle.std.specs.Prelude.{◌≡◌, min, List, length};
ghost use Rattle.std.specs.Option.{option_map};
ghost use Rattle.source.specs.Meaning.{Meaning};
ghost use Rattle.source.specs.Racks.{AllLawful, marks_at, CalledAt};

use crate::mark::Mark;
use faults::Fault;

// Sources side by side, numbered from 0.
pub trait Rack {
    // The meanings of its sources, in the order of their numbers.
    ghost meanings: { Self → List Meaning };

    // How many sources it has; 255 stands for any larger number, too.
    fn count(&self) -> u8
        ensures value { result ≡ min (length (meanings self.now)) 255 };

    // The marks of the source of this number, if there is one.
    fn marks(&self, source: usize) -> Option<&[Mark]>
        ensures value { option_map (λ x. x.now) result ≡ marks_at (meanings self.now) source };

    // Calls the source of this number, and leaves the others.
    fn call(&mut self, source: usize, inputs: &[u32], memory: &mut [u32]) -> Result<usize, Fault>
        ensures called { CalledAt source (meanings self.old) (meanings self.new) inputs.now memory.old memory.new result };

    ghost lawful: { (s : Self) → AllLawful (meanings s) };
}
