ghost use Rattle.std.specs.Prelude.{◌≡◌, ◌<◌, [], ◌∷◌, ◌++◌, length};
ghost use Rattle.ordering.specs.Listed.{places_of};

use bounded::Bounded;
pub use query::LITERAL_MAX;

// Places of literals in the order in which they are to be called.
#[derive(Clone, Copy)]
pub struct Order {
    places: Bounded<u8, LITERAL_MAX>,
}

impl Order {
    // No place yet.
    pub(crate) fn new() -> Order
        ensures empty { places_of result ≡ [] }
    {
        Order {
            places: Bounded::new(0),
        }
    }

    // Puts a place behind the others.
    pub(crate) fn push(&mut self, place: u8)
        requires room { length (places_of self.old) < 8 }
        ensures after { places_of self.new ≡ places_of self.old ++ (place ∷ []) }
    {
        let _ = self.places.push(place);
    }

    // The places, first to last.
    pub fn places(&self) -> &[u8]
        ensures value { result.now ≡ places_of self.now }
    {
        self.places.as_slice()
    }
}
