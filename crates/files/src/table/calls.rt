ghost use Rattle.std.specs.Prelude.{◌≡◌, [], ◌∷◌, length, take};
ghost use Rattle.source.specs.declared.mark.Mark.TheVariants.{Free};
ghost use Rattle.files.specs.Tables.{table_marks, table_rows, table_cells, Opened, Exactly, Made};
ghost use Rattle.files.specs.Making.{Wrote, FileWritten};

use crate::columns::Columns;
use crate::making::gather;
use crate::opening::load;
use crate::rows::Rows;
use crate::table::Table;
use crate::writing::{file_size, fill};
use faults::{Fault, Refusal};
use source::Mark;

impl Table {
    // A table of one free column and no row.
    pub fn empty() -> Table
        ensures marks { table_marks result ≡ Free ∷ [] }
        ensures cells { table_cells result ≡ [] }
    {
        Table {
            rows: Rows::new(Columns::one(Mark::Free)),
        }
    }

    // Opens a file. Refused if the bytes are not one.
    #[tactic(auto, using(crate::proofs::Exact::one_content, crate::proofs::Exact::one_fault, crate::proofs::Exact::file_not_refused))]
    pub fn read(bytes: &[u8]) -> Result<Table, Fault>
        ensures opened { Opened bytes.now result }
        ensures exactly { Exactly bytes.now result }
    {
        Ok(Table { rows: load(bytes)? })
    }

    // A table of these marks, and of the rows whose values stand one after another. Refused if no
    // file can hold them.
    pub fn from_values(marks: &[Mark], values: &[u32]) -> Result<Table, Fault>
        ensures made { Made marks.now values.now result }
    {
        Ok(Table {
            rows: gather(marks, values)?,
        })
    }

    // The marks of the columns, in column order.
    pub fn marks(&self) -> &[Mark]
        ensures value { result.now ≡ table_marks self.now }
    {
        self.rows.columns().marks()
    }

    // The rows, ascending, in cells of four: the columns of a row are its first ones.
    pub fn rows(&self) -> &[[u32; 4]]
        ensures value { result.now ≡ table_cells self.now }
    {
        self.rows.cells()
    }

    // The values of a row that stands in four cells: one for each column.
    pub fn values<'a>(&self, row: &'a [u32; 4]) -> &'a [u32]
        ensures value { result.now ≡ take (length (table_marks self.now)) row.now }
        ensures len { length result.now ≡ length (table_marks self.now) }
    {
        self.rows.columns().values(row)
    }

    // Writes the file from the start of the memory, and returns its length. Refused if the memory is
    // shorter than the file.
    pub fn write(&self, memory: &mut [u8]) -> Result<usize, Fault>
        ensures wrote { Wrote (table_marks self.now) (table_rows self.now) memory.old memory.new result }
    {
        let needed = file_size(&self.rows);
        if memory.len() < needed {
            return Err(Fault::bare(Refusal::MemoryTooShort));
        }
        fill(memory, &self.rows);
        Ok(needed)
    }
}

// Writes the file of these marks and values from the start of the memory, and returns its length.
// Refused if no file can hold them, or the memory is shorter than the file.
#[tactic(auto, using(crate::proofs::Storing::filed))]
pub fn write_file(marks: &[Mark], values: &[u32], memory: &mut [u8]) -> Result<usize, Fault>
    ensures written { FileWritten marks.now values.now memory.old memory.new result }
{
    Table::from_values(marks, values)?.write(memory)
}
