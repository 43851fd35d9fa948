ghost use Rattle.std.specs.Prelude.{◌≡◌, ◌≤◌, length};
ghost use Rattle.files.specs.Steps.{RowRead, Headed, HeadRead, RowsRead, Loaded};

use crate::columns::{COLUMNS_MAX, Columns};
use crate::rows::{ROWS_MAX, Rows};
use crate::writing::rows_size;
use faults::{Fault, Refusal};

// What a header says, and where the rows begin.
#[derive(Drop)]
pub struct Head {
    pub columns: Columns,
    pub count: usize,
    pub at: usize,
}

// Reads a row, and answers where it ends. A struct of the bytes and the place would be no plainer: each
// call would build it for one place, since contracts speak of places of the whole.
fn read_row(bytes: &[u8], at: usize, columns: usize) -> Result<([u32; 4], usize), Fault>
    requires at { at ≤ length bytes.now }
    requires columns { columns ≤ 4 }
    ensures { RowRead bytes.now at columns result }
{
    let mut row = [0; 4];
    let mut to = at;
    for cell in &mut row[..columns] {
        let (value, count) = numbers::read(bytes, to)?;
        *cell = value;
        to += count;
    }
    Ok((row, to))
}

// Reads the header. Its numbers become sizes by `as`: a size has no `From` of 32 bits.
#[tactic(auto, using(crate::proofs::Heads::told, crate::proofs::Heads::cut_0, crate::proofs::Heads::range_0, crate::proofs::Heads::cut_1))]
fn read_head(bytes: &[u8]) -> Result<Head, Fault>
    ensures { HeadRead bytes.now result }
{
    let (width, a) = numbers::read(bytes, 0)?;
    if width < 1 || width as usize > COLUMNS_MAX {
        return Err(Fault::placed(Refusal::HeaderRange, 0));
    }
    let (packed, b) = numbers::read(bytes, a)?;
    let columns = Columns::unpack(width as usize, packed).ok_or(Fault::placed(
        Refusal::HeaderRange,
        a,
    ))?;
    let (count, d) = numbers::read(bytes, a + b)?;
    if count as usize > ROWS_MAX {
        return Err(Fault::placed(Refusal::HeaderRange, a + b));
    }
    Ok(Head {
        columns,
        count: count as usize,
        at: a + b + d,
    })
}

// Reads the rows, and answers where they end.
#[tactic(auto, using(crate::proofs::Fronts::fell, crate::proofs::Fronts::stopped, bounded::proofs::Holding::length_most))]
fn read_rows(bytes: &[u8], head: Head) -> Result<(Rows, usize), Fault>
    requires headed { Headed bytes.now head }
    ensures { RowsRead bytes.now head result }
{
    let width = head.columns.width();
    let mut rows = Rows::new(head.columns);
    let mut at = head.at;
    for _ in 0..head.count {
        let (row, to) = read_row(bytes, at, width)?;
        if !rows.push(&row) {
            return Err(Fault::placed(Refusal::RowsNotAscending, at));
        }
        at = to;
    }
    Ok((rows, at))
}

// Reads a whole file: the header, the rows, that nothing is left over and no row has too many with its inputs.
#[tactic(auto, using(crate::proofs::Ends::over, crate::proofs::Ends::holds, crate::proofs::Ends::full))]
pub(crate) fn load(bytes: &[u8]) -> Result<Rows, Fault>
    ensures { Loaded bytes.now result }
{
    let head = read_head(bytes)?;
    let begin = head.at;
    let (rows, end) = read_rows(bytes, head)?;
    if end < bytes.len() {
        return Err(Fault::placed(Refusal::BytesLeftOver, end));
    }
    if let Some(i) = rows.first_crowded() {
        let front = rows_size(rows.columns(), &rows.cells()[..i]);
        return Err(Fault::placed(Refusal::TooManyMatches, begin + front));
    }
    Ok(rows)
}
