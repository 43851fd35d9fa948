ghost use Rattle.std.specs.Prelude.{◌≡◌, List, length};
ghost use Rattle.ordering.specs.Literals.{Literal, literal_at, WellFormed};

use query::Term;
use source::Mark;

// What has literals, as the body of a query does. Their places count from 0.
pub trait Conjunction {
    // Its literals, in the order of their places.
    ghost literals: { Self → List Literal };

    // How many literals it has.
    fn count(&self) -> usize
        ensures value { result ≡ length (literals self.now) };

    // The marks of the columns of the literal at a place; none past the last literal.
    fn marks(&self, place: usize) -> &[Mark]
        ensures value { result.now ≡ (literal_at (literals self.now) place).marks };

    // The terms of the literal at a place; none past the last literal.
    fn terms(&self, place: usize) -> &[Term]
        ensures value { result.now ≡ (literal_at (literals self.now) place).terms };

    ghost lawful: { (s : Self) → WellFormed (literals s) };
}
