ghost use Rattle.std.specs.Prelude.{◌≡◌, [], ◌∷◌};
ghost use Rattle.source.specs.declared.mark.Mark.TheVariants.{Free};
ghost use Rattle.files.specs.Tables.{table_marks, table_rows};
ghost use Rattle.ends.specs.Storage.{storage, Reopened};
ghost use Rattle.files.proofs.Storing.{table_storable};
ghost use Rattle.source.proofs.Matching.{each_whole};
ghost use Rattle.ends.specs.Storing;

use crate::lookup::Lookup;
use faults::Fault;
use files::Table;
use source::{Mark, Source, admit};

// A source that answers from a stored table.
#[derive(Drop)]
pub struct Register {
    table: Table,
}

impl Register {
    // A register of one free column and no row.
    pub fn new() -> Register
        ensures marks { table_marks result.table ≡ Free ∷ [] }
        ensures rows { table_rows result.table ≡ [] }
    {
        Register {
            table: Table::empty(),
        }
    }

    // Fills the register from a file. A refused file leaves it as it was.
    pub fn open(&mut self, bytes: &[u8]) -> Result<(), Fault>
        ensures opened { Reopened bytes.now self.old.table self.new.table result }
    {
        self.table = Table::read(bytes)?;
        Ok(())
    }
}

impl Source for Register {
    ghost meaning = { λ s. storage (table_marks s.table) (table_rows s.table) };

    ghost lawful = { λ s.
        let marks = table_marks s.table in
        let rows = table_rows s.table in
        let t = table_storable s.table in
        Storing.lawful marks rows t.ascends t.header.some_column t.header.four_columns t.header.three_given (each_whole marks rows t.rows_whole) t.few_match };

    fn marks(&self) -> &[Mark] {
        self.table.marks()
    }

    #[tactic(auto, using(crate::specs::Storing::answered))]
    fn call(&mut self, inputs: &[u32], memory: &mut [u32]) -> Result<usize, Fault> {
        admit(self.table.marks(), inputs, memory.len())?;
        let lookup = Lookup {
            table: &self.table,
            inputs,
        };
        Ok(lookup.write(memory))
    }
}
