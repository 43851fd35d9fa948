ghost use Rattle.std.specs.Prelude.{◌≡◌};
ghost use Rattle.source.specs.Meaning.{Meaning, Lawful};
ghost use Rattle.source.specs.Calls.{Called};

use crate::mark::Mark;
use faults::Fault;

// How many numbers the answer memory of a call must have: 64 rows of four columns.
pub const ANSWER_ROOM: usize = 256;

// A source that answers calls. Whoever proves an impl against these clauses has a lawful source.
pub trait Source {
    // The marks of its columns, its relation, its bars, and whether it is steady.
    ghost meaning: { Self → Meaning };

    // The marks of the columns, in column order.
    fn marks(&self) -> &[Mark]
        ensures value { result.now ≡ (meaning self.now).marks };

    // Answers the rows that hold the inputs in their given columns: writes them from the start of
    // the memory, and returns how many they are. The inputs and the memory are no struct: a caller
    // has them apart, reads the one and writes the other, and would build it for each call.
    fn call(&mut self, inputs: &[u32], memory: &mut [u32]) -> Result<usize, Fault>
        ensures called { Called (meaning self.old) (meaning self.new) inputs.now memory.old memory.new result };

    ghost lawful: { (s : Self) → Lawful (meaning s) };
}
