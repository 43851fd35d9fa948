// The record of a catalogue.
ghost use Rattle.std.specs.Prelude.{◌≡◌, ◌<◌, true, map};
ghost use Rattle.bounded.specs.Held.{held};
ghost use Rattle.catalogue.specs.Plain.{entry_columns, all_shaped};

use crate::columns::Entry;
use bounded::Bounded;
use lexing::Name;

// The kinds by their names, and the sources by their names and columns. Both are numbered from 0.
// There is a source; each has a name and columns, at least one, of kinds that there are, each with a
// mark, and at most three of them given.
#[derive(Clone, Copy)]
pub struct Catalogue {
    pub(crate) kinds: Bounded<Name, 16>,
    pub(crate) entries: Bounded<Entry, 8>,
    ghost some: { 0 < entries.used },
    ghost shaped: { all_shaped kinds.used (map entry_columns (held entries)) ≡ true },
}
