// The record of a query.
ghost use Rattle.std.specs.Prelude.{◌≡◌, true, map};
ghost use Rattle.bounded.specs.Held.{held};
ghost use Rattle.catalogue.specs.Records.{source_columns};
ghost use Rattle.query.specs.Plain.{plain_literal, sound as fits_together};

use crate::term::Literal;
use bounded::Bounded;
use catalogue::Catalogue;
use lexing::Name;

// The most variables, variables of the head, and literals of a query.
pub const VARIABLE_MAX: usize = 16;

pub const HEAD_MAX: usize = 4;

pub const LITERAL_MAX: usize = 8;

// A query over the catalogue that it keeps: the names of its variables, numbered as they first
// appear, the variables of its head, and its literals. Its literals fit the catalogue's sources, and
// the variables of its head stand in them.
#[derive(Clone, Copy)]
pub struct Query {
    pub(crate) catalogue: Catalogue,
    pub(crate) variables: Bounded<Name, VARIABLE_MAX>,
    pub(crate) head: Bounded<u8, HEAD_MAX>,
    pub(crate) literals: Bounded<Literal, LITERAL_MAX>,
    ghost sound: { fits_together (source_columns catalogue) variables.used (held head) (map plain_literal (held literals)) ≡ true },
}
