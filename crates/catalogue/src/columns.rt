// What a catalogue has of a source: its name and its columns.
ghost use Rattle.std.specs.Prelude.{◌≡◌, ◌<◌, ◌∷◌, ◌++◌, [], ℕ, length};
ghost use Rattle.bounded.specs.Held.{held};

use bounded::Bounded;
use lexing::{Name, Named};
use source::Mark;

// The number of each column's kind, and each column's mark. The two stay lists of their own since
// each is lent as a slice. The columns of files are another type: at least one, and without kinds.
#[derive(Clone, Copy)]
pub struct Columns {
    pub(crate) kinds: Bounded<u8, 4>,
    pub(crate) marks: Bounded<Mark, 4>,
}

impl Columns {
    // No columns.
    pub(crate) fn new() -> Columns
        ensures kinds { held result.kinds ≡ [] }
        ensures marks { held result.marks ≡ [] }
    {
        Columns {
            kinds: Bounded::new(0),
            marks: Bounded::new(Mark::Free),
        }
    }

    // Adds a column at the end, where there is a place for it.
    pub(crate) fn push(&mut self, kind: u8, mark: Mark)
        ensures kinds { length (held self.old.kinds) < 4 → held self.new.kinds ≡ held self.old.kinds ++ kind ∷ [] }
        ensures marks { length (held self.old.marks) < 4 → held self.new.marks ≡ held self.old.marks ++ mark ∷ [] }
    {
        let _ = self.kinds.push(kind);
        let _ = self.marks.push(mark);
    }
}

// A source's name and its columns.
#[derive(Clone, Copy)]
pub struct Entry {
    pub(crate) name: Name,
    pub(crate) columns: Columns,
}

impl Named for Entry {
    ghost name_of = { λ entry. held entry.name };

    fn name(&self) -> &[u8] {
        self.name.as_slice()
    }
}
