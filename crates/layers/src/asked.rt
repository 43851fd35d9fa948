ghost use Rattle.std.specs.Prelude.{◌≡◌, ◌≤◌, ◌&&◌, length};
ghost use Rattle.source.specs.Rows.{same};
ghost use Rattle.source.specs.Marks.{same_marks};
ghost use Rattle.bounded.specs.Held.{held};

use bounded::Bounded;
use source::Mark;
use source::values::{same_marks, same_values};

// What a source is asked: a list of inputs, under the marks of its columns.
#[derive(Clone, Copy)]
pub struct Asked {
    pub marks: Bounded<Mark, 4>,
    pub inputs: Bounded<u32, 3>,
}

impl Asked {
    // What these inputs ask under these marks.
    pub(crate) fn new(marks: &[Mark], inputs: &[u32]) -> Asked
        requires columns { length marks.now ≤ 4 }
        requires given { length inputs.now ≤ 3 }
        ensures marks { held result.marks ≡ marks.now }
        ensures inputs { held result.inputs ≡ inputs.now }
    {
        Asked {
            marks: Bounded::from_slice(marks, Mark::Free).unwrap(),
            inputs: Bounded::from_slice(inputs, 0).unwrap(),
        }
    }

    // Whether it is what these inputs ask under these marks. The inputs come first: under one source the
    // marks are always the same.
    pub(crate) fn is_for(&self, marks: &[Mark], inputs: &[u32]) -> bool
        ensures { result ≡ (same_marks (held self.now.marks) marks.now && same (held self.now.inputs) inputs.now) }
    {
        same_values(self.inputs.as_slice(), inputs) && same_marks(self.marks.as_slice(), marks)
    }
}
