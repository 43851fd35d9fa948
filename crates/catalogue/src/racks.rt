// Comparing a catalogue with a rack.
ghost use Rattle.std.specs.Prelude.{◌≡◌};
ghost use Rattle.source.specs.Racks.{marks_at};
ghost use Rattle.bounded.specs.Held.{held};
ghost use Rattle.catalogue.specs.Records.{source_columns};
ghost use Rattle.catalogue.specs.Racks.{describes, has_marks};

use crate::columns::Entry;
use crate::record::Catalogue;
use source::Rack;
use source::values::same_marks;

// Whether the rack has a source of this number, with the marks of an entry.
fn has_entry<R: Rack>(rack: &R, source: usize, entry: &Entry) -> bool
    ensures value { result ≡ has_marks (marks_at (R.Rack.meanings rack.now) source) (held entry.now.columns.marks) }
{
    let marks = entry.columns.marks.as_slice();
    rack.marks(source)
        .is_some_and(|others| same_marks(marks, others))
}

impl Catalogue {
    // Whether the rack has as many sources, each with the columns and marks that its line says.
    pub fn fits<R: Rack>(&self, rack: &R) -> bool
        ensures value { result ≡ describes (source_columns self.now) (R.Rack.meanings rack.now) }
    {
        let entries = self.entries.as_slice();
        if usize::from(rack.count()) != entries.len() {
            return false;
        }
        entries
            .iter()
            .enumerate()
            .all(|(source, entry)| has_entry(rack, source, entry))
    }
}
