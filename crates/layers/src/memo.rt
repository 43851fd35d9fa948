ghost use Rattle.std.specs.Prelude.{◌≡◌, ℕ, [], IfOk, IfErr, vec_len};
ghost use Rattle.source.specs.Calls.{Called};
ghost use Rattle.layers.specs.Memory.{kept_all, memoized, Asks, Learns};
ghost use Rattle.layers.specs.Memoizing;
ghost use Rattle.layers.specs.Memoizing.{table_sound};

use crate::table::Table;
use faults::Fault;
use source::{Mark, Source, admit};
use std::alloc::{AllocFailed, Global};

// A layer that remembers the answers to sixteen lists of inputs, if they have at most eight rows.
#[derive(Drop)]
pub struct Memo<S: Source> {
    below: S,
    table: Table,
}

impl<S: Source> Memo<S> {
    // A memo that remembers nothing yet. Where there is no memory for its sixteen entries, the
    // source is handed back.
    pub fn new(heap: Global, below: S) -> Result<Memo<S>, AllocFailed<S>>
        ensures made { IfOk result (λ m. (m.below ≡ below) × (kept_all m.table ≡ []) × (vec_len m.table.entries ≡ 16)) }
        ensures refused { IfErr result (λ y. y.value ≡ below) }
    {
        let Ok(table) = Table::new(heap) else {
            return Err(AllocFailed { value: below });
        };
        Ok(Memo { below, table })
    }
}

impl<S: Source> Source for Memo<S> {
    ghost meaning = { λ s. memoized (kept_all s.table) (S.Source.meaning s.below) };

    ghost lawful = { λ s. Memoizing.lawful (kept_all s.table) (S.Source.meaning s.below) (table_sound s.table) (S.Source.lawful s.below) };

    fn marks(&self) -> &[Mark] {
        self.below.marks()
    }

    #[tactic(auto, using(crate::specs::Memoizing::table_sound, crate::proofs::Answering::answered_there, crate::proofs::Answering::answered_from_entry))]
    fn call(&mut self, inputs: &[u32], memory: &mut [u32]) -> Result<usize, Fault>
        ensures called { Called (memoized (kept_all self.old.table) (S.Source.meaning self.old.below)) (memoized (kept_all self.new.table) (S.Source.meaning self.new.below)) inputs.now memory.old memory.new result }
        ensures below { Asks (kept_all self.old.table) (S.Source.meaning self.old.below) (S.Source.meaning self.new.below) inputs.now memory.old memory.new result }
        ensures learns { Learns self.old.table self.new.table (S.Source.meaning self.old.below).marks inputs.now memory.new result }
    {
        admit(self.below.marks(), inputs, memory.len())?;
        if let Some(entry) = self.table.recall(self.below.marks(), inputs) {
            return Ok(entry.write(memory));
        }
        let count = self.below.call(inputs, memory).map_err(Fault::raised)?;
        self.table
            .remember(self.below.marks(), inputs, count, memory);
        Ok(count)
    }
}
