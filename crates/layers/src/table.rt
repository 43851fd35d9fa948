ghost use Rattle.std.specs.Prelude.{◌≡◌, ◌≤◌, true, [], length, is_some, IfOk, vec_len, nat_lt};
ghost use Rattle.std.specs.Borrow.{sem, follows_if};
ghost use Rattle.std.specs.Option.{ghost_name_of as name_of, option_map};
ghost use Rattle.source.specs.Rows.{rows_in};
ghost use Rattle.layers.specs.Entries.{sound};
ghost use Rattle.layers.specs.Memory.{kept, kept_all, recalled, from_memory, Remembers, with_next};
ghost use Rattle.layers.specs.contracts.table.Table.{the_row};
ghost use Rattle.layers.specs.contracts.entry.Entry.{the_row as entry_row};

use crate::asked::Asked;
use crate::entry::{ENTRY_ROWS, Entry};
use source::Mark;
use std::alloc::{AllocError, Global};

// How many entries a table has.
const ENTRIES: usize = 16;

// Entries, of which the first `used` are filled. They are made beforehand and lent to be filled, so
// that no call allocates.
#[derive(Drop)]
pub struct Table {
    pub entries: Vec<Entry>,
    pub used: usize,
}

impl Table {
    // Sixteen empty entries.
    pub(crate) fn new(heap: Global) -> Result<Table, AllocError>
        ensures made { IfOk result (λ t. (kept_all t ≡ []) × (vec_len t.entries ≡ 16)) }
    {
        let mut entries = Vec::new(heap);
        entries.resize_with(ENTRIES, Entry::empty)?;
        Ok(Table { entries, used: 0 })
    }

    // Lends the next empty entry, if there is one, to be filled.
    fn next_empty(&mut self) -> Option<&mut Entry>
        ensures* lends { sem 𝓛 (follows_if the_row entry_row self.entry.ghost_name (name_of result) (with_next self.old) self.old) }
        ensures some { is_some result ≡ nat_lt self.old.used (vec_len self.old.entries) }
    {
        let next = self.used;
        self.entries.get_mut(next)
    }

    // The first filled entry of these inputs, under these marks, if there is one.
    pub(crate) fn recall(&self, marks: &[Mark], inputs: &[u32]) -> Option<&Entry>
        ensures { recalled (kept_all self.now) marks.now inputs.now ≡ option_map (λ e. (kept e.now).rows) result }
    {
        self.entries
            .iter()
            .take(self.used)
            .find(|entry| entry.asked.is_for(marks, inputs))
    }

    // Fills the next empty entry with the rows that stand from the start of the memory, if they are
    // few enough and an entry is empty.
    #[tactic(auto, using(source::proofs::Chunks::length_rows_in))]
    pub(crate) fn remember(&mut self, marks: &[Mark], inputs: &[u32], count: usize, memory: &[u32])
        requires columns { length marks.now ≤ 4 }
        requires given { length inputs.now ≤ 3 }
        requires room { 32 ≤ length memory.now }
        requires sound { count ≤ 8 → sound marks.now inputs.now (rows_in (length marks.now) count memory.now) ≡ true }
        ensures { Remembers self.old self.new (from_memory marks.now inputs.now count memory.now) }
    {
        if count > ENTRY_ROWS {
            return;
        }
        if let Some(entry) = self.next_empty() {
            *entry = Entry::of(Asked::new(marks, inputs), count, memory);
            self.used += 1;
        }
    }
}
