ghost use Rattle.source.specs.Calls.{Admitted};

use crate::mark::Mark;
use crate::source::ANSWER_ROOM;
use crate::values::count_inputs;
use faults::{Fault, Refusal};

// Tests what every source tests first: that the answer memory, of the length `room`, is long enough,
// and that there is an input for each given column.
pub fn admit(marks: &[Mark], inputs: &[u32], room: usize) -> Result<(), Fault>
    ensures admitted { Admitted marks.now inputs.now room result }
{
    if room < ANSWER_ROOM {
        return Err(Fault::layered(Refusal::MemoryTooShort, 0));
    }
    if inputs.len() != count_inputs(marks) {
        return Err(Fault::layered(Refusal::NotInCatalogue, 0));
    }
    Ok(())
}
