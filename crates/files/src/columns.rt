ghost use Rattle.std.specs.Prelude.{◌≤◌, length};
ghost use Rattle.bounded.specs.Held.{held};
ghost use Rattle.source.specs.Marks.{inputs_of};

use bounded::Bounded;
use source::Mark;

mod calls;

// How many columns there can be.
pub const COLUMNS_MAX: usize = 4;

// How many of them can be given.
pub const GIVEN_MAX: usize = 3;

// The columns of a table: one to four marks, of which at most three are given.
#[derive(Drop)]
pub struct Columns {
    marks: Bounded<Mark, COLUMNS_MAX>,
    ghost some: { 1 ≤ length (held marks) },
    ghost given: { inputs_of (held marks) ≤ 3 },
}
