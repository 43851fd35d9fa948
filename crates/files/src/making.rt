ghost use Rattle.files.specs.Steps.{Parted, Gathered};

use crate::columns::Columns;
use crate::rows::{ROWS_MAX, Rows};
use faults::{Fault, Refusal};
use source::Mark;

// The rows of values that stand one after another.
#[tactic(auto, using(crate::proofs::Dividing::not_whole, crate::proofs::Dividing::too_many_rows, crate::proofs::Dividing::cutting_none, crate::proofs::Storing::unfit_values))]
fn part(columns: Columns, values: &[u32]) -> Result<Rows, Fault>
    ensures { Parted columns values.now result }
{
    let width = columns.width();
    if values.len() % width != 0 || values.len() / width > ROWS_MAX {
        return Err(Fault::bare(Refusal::HeaderRange));
    }
    let mut rows = Rows::new(columns);
    for chunk in values.chunks_exact(width) {
        let mut row = [0; 4];
        row[..width].copy_from_slice(chunk);
        if !rows.push(&row) {
            return Err(Fault::bare(Refusal::RowsNotAscending));
        }
    }
    Ok(rows)
}

// The columns and rows of a table of marks and values.
#[tactic(auto, using(crate::proofs::Storing::unfit_marks, crate::proofs::Storing::unfit_inputs, crate::proofs::Storing::rows_storable, crate::proofs::Storing::few_rows, crate::proofs::Matching::few_match))]
pub(crate) fn gather(marks: &[Mark], values: &[u32]) -> Result<Rows, Fault>
    ensures { Gathered marks.now values.now result }
{
    let columns = Columns::of_marks(marks).ok_or(Fault::bare(Refusal::HeaderRange))?;
    let rows = part(columns, values)?;
    match rows.first_crowded() {
        Some(_) => Err(Fault::bare(Refusal::TooManyMatches)),
        None => Ok(rows),
    }
}
