// The word at a fault.
ghost use Rattle.std.specs.Prelude.{◌≡◌, length};
ghost use Rattle.faults.specs.Refusals.{number};
ghost use Rattle.lexing.specs.Words.{text_of, Word, WordAt};

use crate::name::Alphabet;
use faults::Fault;

// How many bytes of a text are shown at most.
const WORD_MAX: usize = 16;

// The text that a refusal's number speaks of, or an empty one.
fn text_of<'a>(number: u8, catalogue: &'a [u8], query: &'a [u8]) -> &'a [u8]
    ensures value { result.now ≡ text_of number catalogue.now query.now }
{
    // By number, as the format says it: a range has room for refusals that are still to come.
    match number {
        1..=3 => catalogue,
        11..=16 => query,
        _ => &[],
    }
}

// How many bytes stand before the next blank or the end, up to the most that are shown.
fn word_length(bytes: &[u8]) -> usize
    ensures value { Word bytes.now result }
{
    let shown = bytes.iter().take(WORD_MAX);
    shown
        .take_while(|byte| !Alphabet::Blanks.has(**byte))
        .count()
}

// The part of the catalogue's or the query's text at which a fault stands, by the fault's number
// and detail; empty for a fault of another kind, and where the detail lies behind the text.
pub fn word<'a>(fault: &Fault, catalogue: &'a [u8], query: &'a [u8]) -> &'a [u8]
    ensures value { WordAt (text_of (number fault.now.refusal) catalogue.now query.now) fault.now.detail result.now }
{
    let text = text_of(fault.refusal.number(), catalogue, query);
    let place = usize::from(fault.detail);
    let Some(rest) = text.get(place..) else {
        return &[];
    };
    &rest[..word_length(rest)]
}
