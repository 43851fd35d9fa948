ghost use Rattle.std.specs.Prelude.{◌≡◌, ℕ, ◌<◌, [], ◌∷◌, ◌++◌, length, Decides, MatchOption};
ghost use mathlib.Core.List.{Memᴰ};
ghost use Rattle.ordering.specs.Answers.{Answered, Only};
ghost use Rattle.ordering.specs.Listed.{places_of};
ghost use Rattle.ordering.specs.Picking.{Tells, Next, Picks, Stuck, LowestLeft};

use crate::bound_variables::BoundVariables;
use crate::conjunction::Conjunction;
use crate::places::Order;
use faults::{Fault, Refusal};
use std::ops::Range;

// How far an order of a query's literals is found: the places that are taken, and the variables that
// stand in their literals.
#[derive(Drop)]
struct Search<'a, Q: Conjunction> {
    query: &'a Q,
    taken: Order,
    bound: BoundVariables,
    ghost tells: { Tells (Q.literals query.now) (places_of taken) bound.cells },
}

impl<'a, Q: Conjunction> Search<'a, Q> {
    // No place is taken.
    fn new(query: &'a Q) -> Self
        ensures query { result.query.now ≡ query.now }
        ensures none { places_of result.taken ≡ [] }
    {
        Search {
            query,
            taken: Order::new(),
            bound: BoundVariables::new(),
        }
    }

    // Whether a place is taken.
    fn has_taken(&self, place: u8) -> bool
        ensures taken { Decides result (Memᴰ place (places_of self.now.taken)) }
    {
        self.taken.places().contains(&place)
    }

    // Whether the literal at a place can be called next: it is not taken, and it is ready.
    fn can_take(&self, place: u8) -> bool
        ensures next { Decides result (Next (Q.literals self.now.query.now) (places_of self.now.taken) place) }
    {
        let literal = usize::from(place);
        !self.has_taken(place)
            && self
                .bound
                .are_enough(self.query.marks(literal), self.query.terms(literal))
    }

    // The places of the literals, lowest first. There are eight at most: the cast loses nothing, and
    // `try_from` would add a case that never comes.
    fn places(&self) -> Range<u8>
        ensures from { result.start ≡ 0 }
        ensures to { result.end ≡ length (Q.literals self.now.query.now) }
    {
        0..self.query.count() as u8
    }

    // The lowest place that can be called next.
    fn pick(&self) -> Option<u8>
        ensures picked { MatchOption result (Stuck (Q.literals self.now.query.now) (places_of self.now.taken)) (Picks (Q.literals self.now.query.now) (places_of self.now.taken)) }
    {
        self.places().find(|place| self.can_take(*place))
    }

    // The lowest place that is not taken.
    fn lowest_left(&self) -> Option<u8>
        ensures left { MatchOption result ((place : ℕ) → place < length (Q.literals self.now.query.now) → Memᴰ place (places_of self.now.taken)) (LowestLeft (length (Q.literals self.now.query.now)) (places_of self.now.taken)) }
    {
        self.places().find(|place| !self.has_taken(*place))
    }

    // Takes a place: the variables of its literal are bound.
    fn take(&mut self, place: u8)
        requires room { length (places_of self.old.taken) < 8 }
        ensures query { self.new.query ≡ self.old.query }
        ensures after { places_of self.new.taken ≡ places_of self.old.taken ++ (place ∷ []) }
    {
        self.bound.bind(self.query.terms(usize::from(place)));
        self.taken.push(place);
    }
}

// The first executable order of a query's literals, compared place by place. Where there is none:
// 17, with the lowest place that lies in no executable order of any selection of the literals.
pub fn order<Q: Conjunction>(query: &Q) -> Result<Order, Fault>
    ensures answered { Answered (Q.literals query.now) result }
    ensures only { Only (Q.literals query.now) result }
{
    let mut search = Search::new(query);
    while let Some(place) = search.pick() {
        search.take(place);
    }
    match search.lowest_left() {
        Some(place) => Err(Fault::at_literal(Refusal::NoExecutableOrder, place)),
        None => Ok(search.taken),
    }
}
