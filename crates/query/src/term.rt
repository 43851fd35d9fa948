// The terms and literals of a query.
ghost use Rattle.std.specs.Prelude.{◌≡◌, [], map};
ghost use Rattle.bounded.specs.Held.{held};
ghost use Rattle.query.specs.Plain.{plain_literal, plain_term};

use bounded::Bounded;
use std::fmt;

// A value, or the number of a variable.
#[derive(Clone, Copy, PartialEq, Eq, Debug)]
pub enum Term {
    Constant(u32),
    Variable(u8),
}

// As it stands in a record: the value, or `v` and the variable's number.
impl fmt::Display for Term {
    fn fmt<W: fmt::Write>(&self, f: &mut fmt::Formatter<W>) -> fmt::Result {
        match *self {
            Term::Constant(value) => write!(f, "{value}"),
            Term::Variable(number) => write!(f, "v{number}"),
        }
    }
}

// The most terms of a literal.
pub const TERM_MAX: usize = 4;

// The number of a source, and a term for each of its columns.
#[derive(Clone, Copy)]
pub struct Literal {
    pub(crate) source: u8,
    pub(crate) terms: Bounded<Term, TERM_MAX>,
}

impl Literal {
    // A literal of a source, without terms.
    pub(crate) fn new(source: u8) -> Literal
        ensures source { result.source ≡ source }
        ensures none { held result.terms ≡ [] }
    {
        Literal {
            source,
            terms: Bounded::new(Term::Constant(0)),
        }
    }

    // The number of the literal's source.
    pub fn source(&self) -> u8
        ensures value { result ≡ (plain_literal self.now).source }
    {
        self.source
    }

    // The terms, one for each column of the source.
    pub fn terms(&self) -> &[Term]
        ensures value { map plain_term result.now ≡ (plain_literal self.now).terms }
        ensures items { result.now ≡ held self.now.terms }
    {
        self.terms.as_slice()
    }
}
