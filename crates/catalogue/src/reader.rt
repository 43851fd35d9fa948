// Reads the text of a catalogue.
ghost use Rattle.std.specs.Prelude.{◌≡◌, List as Many, []};
ghost use Rattle.catalogue.specs.Sheets.{Line, Column, Part, lines, columns as begun, spaced, kinded, coloned, kinds_in};
ghost use Rattle.catalogue.specs.Reading.{mark_read, steps, Seen, Behind, BehindKind, At, Tied};
ghost use Rattle.catalogue.specs.declared.state.Reader as state;
ghost use Rattle.lexing.specs.Readers.{Taken};
ghost use Rattle.lexing.specs.Tokens.{Token};

use crate::columns::{Columns, Entry};
use crate::state::{Reader, Stage};
use bounded::Bounded;
use faults::Refusal;
use lexing::{TokenReader, is_byte, is_name, number_in, position, to_name};
use source::Mark;
use source::values::count_inputs;

// How many sources, columns of a source, kinds, and given columns of a source there may be.
const SOURCES_MAX: usize = 8;

const COLUMNS_MAX: usize = 4;

const KINDS_MAX: usize = 16;

const GIVEN_MAX: usize = 3;

// The mark that a token is. It is no `TryFrom` of marks, since letters are read as marks only here.
fn mark_of(token: &[u8]) -> Option<Mark>
    ensures value { result ≡ mark_read token.now }
{
    let [letter] = token else {
        return None;
    };
    match char::from(*letter) {
        'b' => Some(Mark::Given),
        'f' => Some(Mark::Free),
        _ => None,
    }
}

// A colon comes between a kind and its mark.
fn take_colon(kind: u8, token: &[u8]) -> Result<Stage, Refusal>
    ensures taken { (r : state.Reader) (ls : Many Line) (n : Token) (cs : Many Column) (k : Token) → BehindKind r r.entry kind ls n cs k → Taken steps (At r) (kinded ls n cs k) token.now result }
{
    if !is_byte(token, b':') {
        return Err(Refusal::CatalogueForm);
    }
    Ok(Stage::Coloned(kind))
}

impl Reader {
    // Nothing is read yet.
    pub(crate) fn new() -> Reader
        ensures tied { Tied result (lines []) }
    {
        let name = Bounded::new(0);
        let columns = Columns::new();
        Reader {
            stage: Stage::Lines,
            kinds: Bounded::new(name),
            entries: Bounded::new(Entry { name, columns }),
            entry: Entry { name, columns },
        }
    }

    // The name of a source begins a line.
    #[tactic(auto, using(crate::proofs::Taking::ninth, crate::proofs::Taking::twice, crate::proofs::Taking::was_some))]
    fn take_source(&mut self, token: &[u8]) -> Result<Stage, Refusal>
        ensures taken { (ls : Many Line) → Seen self.old (kinds_in ls) ls → Taken steps (At self.new) (lines ls) token.now result }
    {
        if !is_name(token) {
            return Err(Refusal::CatalogueForm);
        }
        let name = to_name(token).ok_or(Refusal::CatalogueLimit)?;
        let entries = self.entries.as_slice();
        if entries.len() >= SOURCES_MAX {
            return Err(Refusal::CatalogueLimit);
        }
        if position(entries, token).is_some() {
            return Err(Refusal::SourceNamedTwice);
        }
        let columns = Columns::new();
        self.entry = Entry { name, columns };
        Ok(Stage::Columns)
    }

    // A space comes before a column, and a newline behind the last.
    fn take_gap(&mut self, token: &[u8]) -> Result<Stage, Refusal>
        ensures taken { (ls : Many Line) (n : Token) (cs : Many Column) → Behind self.old self.old.entry ls n cs → Taken steps (At self.new) (begun ls n cs) token.now result }
    {
        if is_byte(token, b' ') {
            return Ok(Stage::Spaced);
        }
        if self.entry.columns.marks.len() == 0 || !is_byte(token, b'\n') {
            return Err(Refusal::CatalogueForm);
        }
        let _ = self.entries.push(self.entry);
        Ok(Stage::Lines)
    }

    // The kind of a column; a new one gets the next number.
    fn take_kind(&mut self, token: &[u8]) -> Result<Stage, Refusal>
        ensures taken { (ls : Many Line) (n : Token) (cs : Many Column) → Behind self.old self.old.entry ls n cs → Taken steps (At self.new) (spaced ls n cs) token.now result }
    {
        if !is_name(token) {
            return Err(Refusal::CatalogueForm);
        }
        if self.entry.columns.marks.len() >= COLUMNS_MAX {
            return Err(Refusal::CatalogueLimit);
        }
        let kind = number_in(&mut self.kinds, token, KINDS_MAX).ok_or(Refusal::CatalogueLimit)?;
        Ok(Stage::Kinded(kind))
    }

    // A mark ends a column.
    fn take_mark(&mut self, kind: u8, token: &[u8]) -> Result<Stage, Refusal>
        ensures taken { (ls : Many Line) (n : Token) (cs : Many Column) (k : Token) → BehindKind self.old self.old.entry kind ls n cs k → Taken steps (At self.new) (coloned ls n cs k) token.now result }
    {
        let mark = mark_of(token).ok_or(Refusal::CatalogueForm)?;
        let marks = self.entry.columns.marks.as_slice();
        if mark == Mark::Given && count_inputs(marks) >= GIVEN_MAX {
            return Err(Refusal::CatalogueLimit);
        }
        self.entry.columns.push(kind, mark);
        Ok(Stage::Columns)
    }

    // The stage behind a token. A match, since the stages are these and no others: closures or trait
    // objects for them would only hide which there are.
    fn step(&mut self, token: &[u8]) -> Result<Stage, Refusal>
        ensures taken { (p : Part) → Tied self.old p → Taken steps (At self.new) p token.now result }
    {
        match self.stage {
            Stage::Lines => self.take_source(token),
            Stage::Columns => self.take_gap(token),
            Stage::Spaced => self.take_kind(token),
            Stage::Kinded(kind) => take_colon(kind, token),
            Stage::Coloned(kind) => self.take_mark(kind, token),
        }
    }
}

impl TokenReader for Reader {
    ghost use Rattle.catalogue.specs.Sheets.{sheets};
    ghost use Rattle.catalogue.specs.Reading.{steps, Tied};

    ghost Given = { Unit {0} };

    ghost grammar = { λ _. sheets };

    ghost steps = { λ _. steps };

    ghost StandsBehind = { λ _ reader part. Tied reader part };

    fn form() -> Refusal {
        Refusal::CatalogueForm
    }

    fn limit() -> Refusal {
        Refusal::CatalogueLimit
    }

    fn passes_over(_token: &[u8]) -> bool {
        false
    }

    fn take(&mut self, token: &[u8]) -> Result<(), Refusal> {
        self.stage = self.step(token)?;
        Ok(())
    }

    fn is_whole(&self) -> bool {
        matches!(self.stage, Stage::Lines) && self.entries.len() > 0
    }
}
