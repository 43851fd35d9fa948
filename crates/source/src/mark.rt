ghost use Rattle.std.specs.Prelude.{◌≡◌};
ghost use Rattle.source.specs.Marks.{is_given};

use std::fmt;

// The mark of a column: `b`, must be given, or `f`, free.
#[derive(Clone, Copy, PartialEq, Eq, Debug)]
pub enum Mark {
    Given,
    Free,
}

impl Mark {
    // Whether a column of this mark must be given.
    pub fn is_given(self) -> bool
        ensures value { result ≡ is_given self }
    {
        self == Mark::Given
    }
}

// The letter by which texts know the mark.
impl fmt::Display for Mark {
    fn fmt<W: fmt::Write>(&self, f: &mut fmt::Formatter<W>) -> fmt::Result {
        f.write_str(match self {
            Mark::Given => "b",
            Mark::Free => "f",
        })
    }
}
