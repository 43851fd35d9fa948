ghost use Rattle.std.specs.Prelude.{◌≡◌, ◌*◌, ◌≤◌, true, [], length};
ghost use Rattle.source.specs.Rows.{rows_in};
ghost use Rattle.bounded.specs.Held.{held};
ghost use Rattle.layers.specs.Entries.{sound};

use crate::asked::Asked;
use bounded::Bounded;

// How many rows an entry has at the most.
pub const ENTRY_ROWS: usize = 8;

// How many values an entry has at the most: eight rows of four columns.
pub const ENTRY_VALUES: usize = 32;

// The rows that a source answered: how many they are, and their values one row after another, as they
// stand in an answer memory, so that they are copied there at once.
#[derive(Drop)]
pub struct Entry {
    pub asked: Asked,
    pub count: usize,
    pub values: Bounded<u32, ENTRY_VALUES>,
    ghost full: { length (held values) ≡ count * length (held asked.marks) },
    ghost sound: { sound (held asked.marks) (held asked.inputs) (rows_in (length (held asked.marks)) count (held values)) ≡ true },
}

impl Entry {
    ghost use Rattle.source.specs.Rows.{Written};
    ghost use Rattle.layers.specs.Memory.{kept, from_memory};

    // An entry that is not filled.
    pub(crate) fn empty() -> Entry
        ensures { kept result ≡ from_memory [] [] 0 [] }
    {
        Entry {
            asked: Asked::new(&[], &[]),
            count: 0,
            values: Bounded::new(0),
        }
    }

    // The entry of the rows that stand from the start of the memory.
    #[tactic(auto, using(crate::proofs::Storing::cut_rows, crate::proofs::Storing::cut_sound))]
    pub(crate) fn of(asked: Asked, count: usize, memory: &[u32]) -> Entry
        requires room { 32 ≤ length memory.now }
        requires count { count ≤ 8 }
        requires sound { sound (held asked.marks) (held asked.inputs) (rows_in (length (held asked.marks)) count memory.now) ≡ true }
        ensures { kept result ≡ from_memory (held asked.marks) (held asked.inputs) count memory.now }
    {
        let used = count * asked.marks.len();
        Entry {
            asked,
            count,
            values: Bounded::from_slice(&memory[..used], 0).unwrap(),
        }
    }

    // Writes the rows from the start of the memory, and returns how many they are.
    #[tactic(auto, using(source::proofs::Chunks::length_rows_in, crate::proofs::Storing::stored_values))]
    pub(crate) fn write(&self, memory: &mut [u32]) -> usize
        requires { length (held self.now.values) ≤ length memory.old }
        ensures count { result ≡ length (kept self.now).rows }
        ensures written { Written (kept self.now).rows memory.old memory.new }
    {
        let values = self.values.as_slice();
        memory[..values.len()].copy_from_slice(values);
        self.count
    }
}
