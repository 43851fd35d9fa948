// Looking rows up by their inputs in a table, whose rows ascend.
ghost use Rattle.std.specs.Prelude.{◌≡◌, ◌+◌, ◌≤◌, true, [], ◌++◌, length, take, drop};
ghost use Rattle.source.specs.Rows.{Written};
ghost use Rattle.source.specs.Marks.{inputs_of};
ghost use Rattle.files.specs.Tables.{table_marks, table_rows, table_cells};
ghost use Rattle.ends.specs.Lookup.{found, given_first, Beyond};

use files::Table;
use source::values::{comes_before, count_inputs, holds_inputs};

// A table, and an input for each of its given columns.
#[derive(Drop)]
pub(crate) struct Lookup<'a> {
    pub(crate) table: &'a Table,
    pub(crate) inputs: &'a [u32],
    ghost as_many: { length inputs.now ≡ inputs_of (table_marks table.now) },
}

impl Lookup<'_> {
    // Whether the given columns stand before the free ones.
    fn given_first(&self) -> bool
        ensures { result ≡ given_first (table_marks self.now.table.now) self.now.inputs.now }
    {
        let given = self.inputs.len();
        count_inputs(&self.table.marks()[..given]) == given
    }

    // Where a scan for the inputs may begin: no row before it holds them.
    fn start(&self, leads: bool) -> usize
        requires order { leads ≡ given_first (table_marks self.now.table.now) self.now.inputs.now }
        ensures inside { result ≤ length (table_cells self.now.table.now) }
        ensures none { found (table_marks self.now.table.now) self.now.inputs.now (take result (table_cells self.now.table.now)) ≡ [] }
        ensures beyond { given_first (table_marks self.now.table.now) self.now.inputs.now ≡ true → Beyond (table_rows self.now.table.now) self.now.inputs.now result }
    {
        if !leads {
            return 0;
        }
        let inputs = self.inputs;
        let rows = self.table.rows();
        rows.partition_point(|row| comes_before(&row[..inputs.len()], inputs))
    }

    // Writes the rows that hold the inputs from the start of the memory, and returns how many they are.
    // Where the given columns stand first, the rows that hold the inputs stand together: their first is
    // found by halving, and the scan ends behind their last. The rows are counted by hand, since as
    // chains the two scans would be two: `take_while` where the given columns lead, `filter` elsewhere.
    #[tactic(auto, using(crate::proofs::Scanning::scanned_none))]
    pub(crate) fn write(&self, memory: &mut [u32]) -> usize
        requires room { 256 ≤ length memory.old }
        ensures count { result ≡ length (found (table_marks self.now.table.now) self.now.inputs.now (table_cells self.now.table.now)) }
        ensures written { Written (found (table_marks self.now.table.now) self.now.inputs.now (table_cells self.now.table.now)) memory.old memory.new }
    {
        let marks = self.table.marks();
        let leads = self.given_first();
        let start = self.start(leads);
        let mut count = 0;
        for cells in &self.table.rows()[start..] {
            let row = self.table.values(cells);
            if holds_inputs(marks, self.inputs, row) {
                put_row(memory, count * marks.len(), row);
                count += 1;
            } else if leads {
                break;
            }
        }
        count
    }
}

// Copies a row to a place of the memory.
fn put_row(memory: &mut [u32], at: usize, row: &[u32])
    requires { at + length row.now ≤ length memory.old }
    ensures { memory.new ≡ take at memory.old ++ (row.now ++ drop (at + length row.now) memory.old) }
{
    memory[at..at + row.len()].copy_from_slice(row);
}
