ghost use Rattle.std.specs.Prelude.{◌≡◌, ◌+◌, ◌-◌, ◌^◌, min, true, is_ok};
ghost use Rattle.source.specs.Calls.{Called};
ghost use Rattle.stranger.specs.Seals.{passed_on};
ghost use Rattle.stranger.specs.Sealing.{lawful_over};

use faults::Fault;
use source::{Mark, Source, admit};

// A layer that counts the calls that it passes on.
#[derive(Drop)]
pub struct Counted<S: Source> {
    below: S,
    calls: u64,
}

impl<S: Source> Counted<S> {
    pub fn new(below: S) -> Counted<S>
        ensures below { result.below ≡ below }
        ensures calls { result.calls ≡ 0 }
    {
        Counted { below, calls: 0 }
    }

    // How many calls were passed on.
    pub fn calls(&self) -> u64
        ensures value { result ≡ self.now.calls }
    {
        self.calls
    }
}

impl<S: Source> Source for Counted<S> {
    ghost meaning = { λ s. passed_on (S.Source.meaning s.below) };

    ghost lawful = { λ s. lawful_over (S.Source.meaning s.below) (S.Source.lawful s.below) };

    fn marks(&self) -> &[Mark] {
        self.below.marks()
    }

    fn call(&mut self, inputs: &[u32], memory: &mut [u32]) -> Result<usize, Fault>
        ensures called { Called (passed_on (S.Source.meaning self.old.below)) (passed_on (S.Source.meaning self.new.below)) inputs.now memory.old memory.new result }
        ensures calls { is_ok result ≡ true → self.new.calls ≡ min (self.old.calls + 1) (2 ^ 64 - 1) }
    {
        admit(self.below.marks(), inputs, memory.len())?;
        self.calls = self.calls.saturating_add(1);
        self.below.call(inputs, memory).map_err(Fault::raised)
    }
}
