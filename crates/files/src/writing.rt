ghost use Rattle.std.specs.Prelude.{◌≡◌, ◌+◌, ◌*◌, ◌≤◌, ◌++◌, length, drop};
ghost use Rattle.source.specs.Rows.{flat};
ghost use Rattle.numbers.specs.Forms.{encodes};
ghost use Rattle.numbers.specs.Writing.{Filled};
ghost use Rattle.files.specs.Contents.{file, header_numbers};
ghost use Rattle.files.specs.Held.{columns_marks, cut};
ghost use Rattle.files.specs.Listed.{rows_marks, rows_values};

use crate::columns::Columns;
use crate::rows::Rows;

// How many bytes these values take.
fn values_size(values: &[u32]) -> usize
    requires { length values.now ≤ 4 }
    ensures long { result ≡ length (encodes values.now) }
    ensures few { result ≤ 20 }
{
    values.iter().map(|&value| numbers::size(value)).sum()
}

// How many bytes the rows take.
pub(crate) fn rows_size(columns: &Columns, rows: &[[u32; 4]]) -> usize
    requires { length rows.now ≤ 1024 }
    ensures long { result ≡ length (encodes (flat (cut (length (columns_marks columns.now)) rows.now))) }
    ensures few { result ≤ 20 * length rows.now }
{
    rows.iter()
        .map(|row| values_size(columns.values(row)))
        .sum()
}

// The numbers of the header. Both sizes are small: `try_from` would add a refusal that never comes.
fn header(rows: &Rows) -> [u32; 3]
    ensures { result ≡ header_numbers (rows_marks rows.now) (length (rows_values rows.now)) }
{
    let columns = rows.columns();
    [
        columns.width() as u32,
        columns.pack(),
        rows.cells().len() as u32,
    ]
}

// How many bytes a file takes.
#[tactic(auto, using(crate::proofs::Sizes::file_long))]
pub(crate) fn file_size(rows: &Rows) -> usize
    ensures { result ≡ length (file (rows_marks rows.now) (rows_values rows.now)) }
{
    values_size(&header(rows)) + rows_size(rows.columns(), rows.cells())
}

// Writes values one after another where there is room for them, and answers the place behind them. A
// struct of the memory and the place would be no plainer: the two calls would build it and take it apart.
fn put_values(memory: &mut [u8], at: usize, values: &[u32]) -> usize
    requires { at + length (encodes values.now) ≤ length memory.old }
    ensures place { result ≡ at + length (encodes values.now) }
    ensures filled { Filled memory.old memory.new at (encodes values.now) }
{
    let mut to = at;
    for value in values {
        to += numbers::write(memory, to, *value).unwrap();
    }
    to
}

// Writes a file from the start of the memory, which has room for it.
pub(crate) fn fill(memory: &mut [u8], rows: &Rows)
    requires { length (file (rows_marks rows.now) (rows_values rows.now)) ≤ length memory.old }
    ensures { memory.new ≡ file (rows_marks rows.now) (rows_values rows.now) ++ drop (length (file (rows_marks rows.now) (rows_values rows.now))) memory.old }
{
    let mut to = put_values(memory, 0, &header(rows));
    for row in rows.cells() {
        to = put_values(memory, to, rows.columns().values(row));
    }
}
