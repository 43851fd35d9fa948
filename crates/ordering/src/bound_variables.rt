ghost use Rattle.std.specs.Prelude.{◌≡◌, false, length, replicate, Decides};
ghost use Rattle.ordering.specs.Picking.{SetIn, AllSet, Binds};

use query::{Term, VARIABLE_MAX};
use source::Mark;

// The variables that have a value so far: for each number whether it is that of one.
#[derive(Drop)]
pub(crate) struct BoundVariables {
    cells: [bool; VARIABLE_MAX],
}

impl BoundVariables {
    // No variable has a value.
    pub(crate) fn new() -> BoundVariables
        ensures none { result.cells ≡ replicate 16 false }
    {
        BoundVariables {
            cells: [false; VARIABLE_MAX],
        }
    }

    // Whether a term is a constant or a bound variable.
    fn is_known(&self, term: &Term) -> bool
        ensures known { Decides result (SetIn self.now.cells term.now) }
    {
        match *term {
            Term::Constant(_) => true,
            Term::Variable(v) => self.cells.get(usize::from(v)) == Some(&true),
        }
    }

    // Whether each column marked `b` holds a constant or a bound variable.
    pub(crate) fn are_enough(&self, marks: &[Mark], terms: &[Term]) -> bool
        ensures ready { Decides result (AllSet self.now.cells marks.now terms.now) }
    {
        marks
            .iter()
            .zip(terms)
            .all(|(mark, term)| *mark == Mark::Free || self.is_known(term))
    }

    // Notes that the variables among the terms are bound.
    pub(crate) fn bind(&mut self, terms: &[Term])
        ensures binds { Binds terms.now self.old.cells self.new.cells }
    {
        for term in terms {
            if let Term::Variable(v) = *term {
                // By index: where `get_mut` lends a cell, the library does not say what the cells end as.
                let v = usize::from(v);
                if v < self.cells.len() {
                    self.cells[v] = true;
                }
            }
        }
    }
}
