ghost use Rattle.std.specs.Prelude.{◌≡◌};
ghost use Rattle.faults.specs.Refusals.{number};

use std::fmt;

// Why a call, a file or a text is refused, with the number by which it is known outside.
#[derive(Clone, Copy, PartialEq, Eq, Debug)]
pub enum Refusal {
    // A catalogue text has the wrong form.
    CatalogueForm = 1,
    // A catalogue text passes a limit.
    CatalogueLimit = 2,
    // A catalogue text names a source twice.
    SourceNamedTwice = 3,
    // A query text has the wrong form.
    QueryForm = 11,
    // A literal of a query names no source, or has more or fewer terms than its source has columns.
    UnfitLiteral = 12,
    // A query text passes a limit.
    QueryLimit = 13,
    // A variable of a query stands in columns of two kinds.
    VariableInTwoKinds = 14,
    // A variable of a query's head stands in none of its literals.
    HeadVariableMissing = 15,
    // A constant of a query is above the largest value.
    ConstantTooLarge = 16,
    // No order of a query's literals can be executed.
    NoExecutableOrder = 17,
    // A lent memory has too few numbers.
    MemoryTooShort = 21,
    // No such source, or another number of inputs than the source takes.
    NotInCatalogue = 23,
    // A bar: nothing is left to answer with. It may come at any time to a source that is not steady.
    Spent = 31,
    // A bar: what is stored for these inputs does not verify.
    Unverified = 32,
    // A bar: what is stored for these inputs is out of order.
    Unsound = 33,
    // A number in a file is cut off, not in its shortest form, or too large.
    NumberForm = 41,
    // A header value of a file is out of range.
    HeaderRange = 42,
    // The rows of a file do not ascend.
    RowsNotAscending = 43,
    // More rows than one call may answer have the same inputs.
    TooManyMatches = 44,
    // Bytes stand behind the last row of a file.
    BytesLeftOver = 45,
    // A divider by 0.
    DivisorZero = 46,
}

impl Refusal {
    // The number by which the refusal is known outside.
    pub fn number(self) -> u8
        ensures value { result ≡ number self }
    {
        self as u8
    }
}

// As it stands in a record: the word `refusal` and the number.
impl fmt::Display for Refusal {
    fn fmt<W: fmt::Write>(&self, f: &mut fmt::Formatter<W>) -> fmt::Result {
        write!(f, "refusal {}", self.number())
    }
}
