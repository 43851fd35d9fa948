ghost use Rattle.std.specs.Prelude.{◌≡◌, true};
ghost use Rattle.source.specs.Rows.{ascending};
ghost use Rattle.source.specs.Marks.{all_whole};
ghost use Rattle.files.specs.Held.{columns_marks, held_rows};

use crate::columns::Columns;
use bounded::Bounded;

mod calls;

// How many rows there can be.
pub const ROWS_MAX: usize = 1024;

// How many rows can have the same inputs.
pub const MATCHES_MAX: usize = 64;

// Rows in cells of four, under their columns: the values of a row are its first cells. Each row has a
// value for each column, and comes before the next.
#[derive(Drop)]
pub struct Rows {
    columns: Columns,
    cells: Bounded<[u32; 4], ROWS_MAX>,
    ghost whole: { all_whole (columns_marks columns) (held_rows columns cells) ≡ true },
    ghost ascends: { ascending (held_rows columns cells) ≡ true },
}
