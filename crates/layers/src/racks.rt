ghost use Rattle.std.specs.Prelude.{[], ◌∷◌};

use faults::{Fault, Refusal};
use source::{ANSWER_ROOM, Mark, Rack, Source};

// A rack of one source. It is not `Beside` a rack of none, since its users make it of the source
// alone.
#[derive(Drop)]
pub struct One<S: Source>(pub S);

// A source beside a rack: the source is number 0, and the rack's follow.
#[derive(Drop)]
pub struct Beside<S: Source, R: Rack>(pub S, pub R);

impl<S: Source> Rack for One<S> {
    ghost meanings = { λ r. S.Source.meaning r.0 ∷ [] };

    ghost lawful = { λ s. (S.Source.lawful s.0, tt) };

    fn count(&self) -> u8 {
        1
    }

    fn marks(&self, source: usize) -> Option<&[Mark]> {
        if source == 0 {
            Some(self.0.marks())
        } else {
            None
        }
    }

    fn call(&mut self, source: usize, inputs: &[u32], memory: &mut [u32]) -> Result<usize, Fault> {
        if source == 0 {
            self.0.call(inputs, memory).map_err(Fault::of_first_source)
        } else if memory.len() < ANSWER_ROOM {
            Err(Fault::layered(Refusal::MemoryTooShort, 0))
        } else {
            Err(Fault::bare(Refusal::NotInCatalogue))
        }
    }
}

impl<S: Source, R: Rack> Rack for Beside<S, R> {
    ghost meanings = { λ r. S.Source.meaning r.0 ∷ R.Rack.meanings r.1 };

    ghost lawful = { λ s. (S.Source.lawful s.0, R.Rack.lawful s.1) };

    fn count(&self) -> u8 {
        self.1.count().saturating_add(1)
    }

    fn marks(&self, source: usize) -> Option<&[Mark]> {
        if source == 0 {
            Some(self.0.marks())
        } else {
            self.1.marks(source - 1)
        }
    }

    #[tactic(auto, using(crate::proofs::Racking::called_beside))]
    fn call(&mut self, source: usize, inputs: &[u32], memory: &mut [u32]) -> Result<usize, Fault> {
        if source == 0 {
            self.0.call(inputs, memory).map_err(Fault::of_first_source)
        } else {
            self.1
                .call(source - 1, inputs, memory)
                .map_err(Fault::of_next_source)
        }
    }
}
