ghost use Rattle.std.specs.Prelude.{ℕ, ◌≤◌, List, length};
ghost use Rattle.source.specs.Marks.{matching};
ghost use Rattle.files.specs.Listed.{rows_marks, rows_values};

use crate::rows::Rows;

pub mod calls;

// What a register file holds. Every table can be stored.
#[derive(Drop)]
pub struct Table {
    rows: Rows,
    ghost matched: { (inputs : List ℕ) → length (matching (rows_marks rows) inputs (rows_values rows)) ≤ 64 },
}
