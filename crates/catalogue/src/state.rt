// How far the text of a catalogue is read.
use crate::columns::Entry;
use bounded::Bounded;
use lexing::Name;

// What stands in front.
#[derive(Clone, Copy)]
pub(crate) enum Stage {
    // Whole lines.
    Lines,
    // The name of a source or a column of its line.
    Columns,
    // A space behind these.
    Spaced,
    // A kind, by its number.
    Kinded(u8),
    // A colon behind it.
    Coloned(u8),
}

#[derive(Clone, Copy)]
pub(crate) struct Reader {
    pub(crate) stage: Stage,
    // The kinds that appeared, and what the whole lines say.
    pub(crate) kinds: Bounded<Name, 16>,
    pub(crate) entries: Bounded<Entry, 8>,
    // The line that is begun, at every stage but the first. No stage carries it, since each token would
    // copy it.
    pub(crate) entry: Entry,
}
