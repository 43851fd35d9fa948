// The kinds in which variables stand.
ghost use Rattle.std.specs.Prelude.{◌≡◌, not, length, replicate, Some, None, slice_index_or};
ghost use Rattle.query.specs.Noted.{noted, other_kind};

use crate::record::VARIABLE_MAX;

// For each variable the kind of the columns in which it stands, or none. The names of the variables
// stay a list of their own, since a query keeps them without kinds.
#[derive(Clone, Copy)]
pub struct Kinds {
    cells: [Option<u8>; VARIABLE_MAX],
    ghost room: { length cells ≡ 16 },
}

impl Kinds {
    // No variable has a kind.
    pub(crate) fn new() -> Kinds
        ensures none { result.cells ≡ replicate 16 None }
    {
        Kinds {
            cells: [None; VARIABLE_MAX],
        }
    }

    // The kind of a variable.
    pub(crate) fn get(&self, variable: u8) -> Option<u8>
        ensures value { result ≡ slice_index_or self.now.cells variable None }
    {
        self.cells.get(usize::from(variable)).copied().flatten()
    }

    // Notes that a variable stands in a column of a kind; says whether it has no other kind.
    pub(crate) fn note(&mut self, variable: u8, kind: u8) -> bool
        ensures agrees { result ≡ not (other_kind (slice_index_or self.old.cells variable None) kind) }
        ensures noted { self.new.cells ≡ noted self.old.cells variable kind (slice_index_or self.old.cells variable None) }
    {
        if let Some(known) = self.get(variable) {
            return known == kind;
        }
        // By index: where `get_mut` lends a cell, the library does not say what the cells end as.
        let i = usize::from(variable);
        if i < self.cells.len() {
            self.cells[i] = Some(kind);
        }
        true
    }
}
