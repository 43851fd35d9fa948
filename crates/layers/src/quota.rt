ghost use Rattle.std.specs.Prelude.{◌≡◌, ◌+◌, ◌-◌, ◌≤◌, min, is_ok, if◌then◌else◌};
ghost use Rattle.source.specs.Calls.{Called, PassedOn};
ghost use Rattle.layers.specs.Limits.{limited, units_max};
ghost use Rattle.layers.specs.Limiting;

use faults::{Fault, Refusal};
use source::{Mark, Source, admit};

// The most units that a quota holds.
pub const UNITS_MAX: u32 = 1_000_000;

// A layer that lets as many calls be answered as it has units.
#[derive(Drop)]
pub struct Quota<S: Source> {
    below: S,
    units: u32,
    ghost few: { units ≤ units_max },
}

impl<S: Source> Quota<S> {
    // Of the units given, those past the most are lost.
    pub fn new(below: S, units: u32) -> Quota<S>
        ensures below { result.below ≡ below }
        ensures units { result.units ≡ min units units_max }
    {
        let units = units.min(UNITS_MAX);
        Quota { below, units }
    }

    // Adds units, and returns how many were added: those past the most are lost.
    pub fn add(&mut self, units: u32) -> u32
        ensures value { result ≡ min units (units_max - self.old.units) }
        ensures units { self.new.units ≡ self.old.units + result }
        ensures below { self.new.below ≡ self.old.below }
    {
        let added = units.min(UNITS_MAX - self.units);
        self.units += added;
        added
    }
}

impl<S: Source> Source for Quota<S> {
    ghost meaning = { λ q. limited q.units (S.Source.meaning q.below) };

    ghost lawful = { λ s. Limiting.lawful s.units (S.Source.meaning s.below) (S.Source.lawful s.below) };

    fn marks(&self) -> &[Mark] {
        self.below.marks()
    }

    fn call(&mut self, inputs: &[u32], memory: &mut [u32]) -> Result<usize, Fault>
        ensures called { Called (limited self.old.units (S.Source.meaning self.old.below)) (limited self.new.units (S.Source.meaning self.new.below)) inputs.now memory.old memory.new result }
        ensures below { PassedOn (S.Source.meaning self.old.below) (S.Source.meaning self.new.below) inputs.now memory.old memory.new result }
        ensures units { self.new.units ≡ (if is_ok result then self.old.units - 1 else self.old.units) }
    {
        admit(self.below.marks(), inputs, memory.len())?;
        if self.units == 0 {
            return Err(Fault::layered(Refusal::Spent, 0));
        }
        let count = self.below.call(inputs, memory).map_err(Fault::raised)?;
        self.units -= 1;
        Ok(count)
    }
}
