// What is left to do behind the last token of a query.
ghost use Rattle.std.specs.Prelude.{◌≡◌, ◌<◌, length, slice_index};
ghost use Rattle.bounded.specs.Held.{held};
ghost use Rattle.query.specs.Ends.{FirstMissing, places, tokens_of};

use crate::draft::Draft;
use lexing::{Tokens, is_blank};

impl<'a> Draft<'a> {
    // The first variable of the head that stands in no literal, by its place in the head.
    pub(crate) fn first_missing(&self) -> Option<usize>
        ensures value { FirstMissing (held self.now.head) self.now.kinds.cells result }
    {
        let head = self.head.as_slice();
        head.iter()
            .position(|number| self.kinds.get(*number).is_none())
    }
}

// The place of a token of a query text, by its number among those that are not blank; 0 where there
// are not so many.
pub(crate) fn place_of_token(text: &[u8], number: usize) -> usize
    ensures value { result ≡ slice_index (places (tokens_of text.now)) number }
{
    Tokens::new(text)
        .filter(|token| !is_blank(token.bytes))
        .map(|token| token.place)
        .nth(number)
        .unwrap_or(0)
}
