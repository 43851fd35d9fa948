ghost use Rattle.ordering.specs.Asked.{asked_literals};
ghost use Rattle.ordering.specs.Asking.{well_formed};

use crate::conjunction::Conjunction;
use query::{Query, Term};
use source::Mark;

// A query is the conjunction of its literals.
impl Conjunction for Query {
    ghost literals = { λ q. asked_literals q };

    ghost lawful = { λ q. well_formed q };

    fn count(&self) -> usize {
        self.literals().len()
    }

    fn marks(&self, place: usize) -> &[Mark] {
        self.literals().get(place).map_or(&[], |literal| {
            self.catalogue().marks(usize::from(literal.source()))
        })
    }

    fn terms(&self, place: usize) -> &[Term] {
        self.literals()
            .get(place)
            .map_or(&[], |literal| literal.terms())
    }
}
