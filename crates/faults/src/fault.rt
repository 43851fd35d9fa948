ghost use Rattle.std.specs.Prelude.{◌≡◌};
ghost use Rattle.faults.specs.Faults.{bare, placed, layered, at_literal, at_source, raised, first_source, next_source, from_literal};

use crate::refusal::Refusal;
use std::error::Error;
use std::fmt;

// What stands in a fault's byte fields where nothing is known.
pub const UNKNOWN: u8 = 255;

// The last layer that has a number of its own.
pub const LAYER_MAX: u8 = 254;

// What stands in a fault's detail where nothing is known.
pub const UNKNOWN_DETAIL: u16 = 65535;

// A refusal with where it arose: the layer counted from the outermost, the number of the source in
// its rack, the place of the literal in its query, and the byte place in a text or a file. The numbers for
// what is unknown are part of the record's format, so its fields are no options.
#[derive(Clone, Copy, PartialEq, Eq, Debug)]
pub struct Fault {
    pub refusal: Refusal,
    pub layer: u8,
    pub source: u8,
    pub literal: u8,
    pub detail: u16,
}

impl Fault {
    // A refusal of which nothing else is known.
    pub fn bare(refusal: Refusal) -> Fault
        ensures value { result ≡ bare refusal }
    {
        Fault::layered(refusal, UNKNOWN)
    }

    // A refusal at a byte place of a text or a file; a place past the largest detail is not told.
    pub fn placed(refusal: Refusal, place: usize) -> Fault
        ensures value { result ≡ placed refusal place }
    {
        let detail = u16::try_from(place).unwrap_or(UNKNOWN_DETAIL);
        Fault {
            detail,
            ..Fault::bare(refusal)
        }
    }

    // A refusal that arose at a layer of a source.
    pub fn layered(refusal: Refusal, layer: u8) -> Fault
        ensures value { result ≡ layered refusal layer }
    {
        Fault {
            refusal,
            layer,
            source: UNKNOWN,
            literal: UNKNOWN,
            detail: UNKNOWN_DETAIL,
        }
    }

    // A refusal of which the place of a query's literal is known.
    pub fn at_literal(refusal: Refusal, literal: u8) -> Fault
        ensures value { result ≡ at_literal refusal literal }
    {
        Fault {
            literal,
            ..Fault::bare(refusal)
        }
    }

    // A refusal of which the source is known.
    pub fn at_source(refusal: Refusal, source: u8) -> Fault
        ensures value { result ≡ at_source refusal source }
    {
        Fault {
            source,
            ..Fault::bare(refusal)
        }
    }

    // The fault as seen from one layer further out; the number of the layer stops at 254.
    pub fn raised(self) -> Fault
        ensures value { result ≡ raised self }
    {
        let layer = self.layer.saturating_add(1).min(LAYER_MAX);
        Fault { layer, ..self }
    }

    // The fault as one of the first source of a rack.
    pub fn of_first_source(self) -> Fault
        ensures value { result ≡ first_source self }
    {
        Fault { source: 0, ..self }
    }

    // The fault of a rack as one of a rack that has a source more in front of it.
    pub fn of_next_source(self) -> Fault
        ensures value { result ≡ next_source self }
    {
        let source = self.source.saturating_add(1);
        Fault { source, ..self }
    }

    // The fault as one of the literal at a place of its query.
    pub fn of_literal(self, literal: u8) -> Fault
        ensures value { result ≡ from_literal literal self }
    {
        Fault { literal, ..self }
    }
}

// A number of a fault, or `-` where it is not known.
#[derive(Clone, Copy)]
struct Shown(Option<u16>);

impl fmt::Display for Shown {
    fn fmt<W: fmt::Write>(&self, f: &mut fmt::Formatter<W>) -> fmt::Result {
        match self.0 {
            Some(number) => write!(f, "{number}"),
            None => f.write_str("-"),
        }
    }
}

// What a byte field of a fault says.
fn byte(field: u8) -> Shown {
    Shown((field != UNKNOWN).then_some(u16::from(field)))
}

// The refusal, and each number behind its name, with a dash for what is not known.
impl fmt::Display for Fault {
    fn fmt<W: fmt::Write>(&self, f: &mut fmt::Formatter<W>) -> fmt::Result {
        write!(
            f,
            "{} layer {} source {} literal {} detail {}",
            self.refusal,
            byte(self.layer),
            byte(self.source),
            byte(self.literal),
            Shown((self.detail != UNKNOWN_DETAIL).then_some(self.detail))
        )
    }
}

impl Error for Fault {}
