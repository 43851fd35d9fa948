ghost use Rattle.std.specs.Prelude.{◌≡◌, ◌<◌, [], ◌∷◌, ◌++◌, length, take, if◌then◌else◌};
ghost use Rattle.source.specs.Rows.{ascending};
ghost use Rattle.files.specs.Held.{columns_marks};
ghost use Rattle.files.specs.Listed.{rows_marks, rows_cells, rows_values};
ghost use Rattle.files.specs.Refusing.{CrowdFound};

use crate::columns::Columns;
use crate::rows::{MATCHES_MAX, Rows};
use bounded::Bounded;
use source::values::comes_before;

impl Rows {
    // No rows under these columns.
    pub(crate) fn new(columns: Columns) -> Rows
        ensures marks { rows_marks result ≡ columns_marks columns }
        ensures none { rows_cells result ≡ [] }
    {
        Rows {
            columns,
            cells: Bounded::new([0; 4]),
        }
    }

    // Adds a row behind the others, if it comes after the last; says whether it does.
    pub(crate) fn push(&mut self, row: &[u32; 4]) -> bool
        requires room { length (rows_values self.old) < 1024 }
        ensures marks { rows_marks self.new ≡ rows_marks self.old }
        ensures follows { result ≡ ascending (rows_values self.old ++ take (length (rows_marks self.old)) row.now ∷ []) }
        ensures values { rows_values self.new ≡ (if result then rows_values self.old ++ take (length (rows_marks self.old)) row.now ∷ [] else rows_values self.old) }
    {
        self.admits(row) && self.cells.push(*row)
    }

    // Whether the rows still ascend with this one behind them.
    #[tactic(auto, using(crate::proofs::Ordering::follows_none, crate::proofs::Ordering::follows_last))]
    fn admits(&self, row: &[u32; 4]) -> bool
        ensures { result ≡ ascending (rows_values self.now ++ take (length (rows_marks self.now)) row.now ∷ []) }
    {
        let Some(last) = self.cells().last() else {
            return true;
        };
        comes_before(self.columns.values(last), self.columns.values(row))
    }

    // The columns.
    pub(crate) fn columns(&self) -> &Columns
        ensures { columns_marks result.now ≡ rows_marks self.now }
    {
        &self.columns
    }

    // The rows in their cells, first to last.
    pub(crate) fn cells(&self) -> &[[u32; 4]]
        ensures { result.now ≡ rows_cells self.now }
    {
        self.cells.as_slice()
    }

    // The first of the rows that has 64 earlier ones with its inputs. As `position` of a closure over
    // `enumerate` it was tried, and the proof did not close.
    #[tactic(auto, using(crate::proofs::Matching::earlier_counted))]
    pub(crate) fn first_crowded(&self) -> Option<usize>
        ensures { CrowdFound (rows_marks self.now) (rows_values self.now) result }
    {
        for (i, row) in self.cells().iter().enumerate() {
            if self.columns.count_alike(&self.cells()[..i], row) >= MATCHES_MAX {
                return Some(i);
            }
        }
        None
    }
}
