// Reads the text of a query.
ghost use Rattle.std.specs.Prelude.{◌≡◌};
ghost use Rattle.catalogue.specs.Records.{Described, described};
ghost use Rattle.query.specs.Rules.{queries};
ghost use Rattle.query.specs.Reading.{steps, Tied};

use crate::draft::Draft;
use crate::stage::Stage;
use catalogue::Catalogue;
use faults::Refusal;
use lexing::{TokenReader, is_blank};

// What is read so far, and what is due.
#[derive(Clone, Copy)]
pub(crate) struct Reader<'a> {
    pub(crate) draft: Draft<'a>,
    pub(crate) stage: Stage,
}

impl<'a> Reader<'a> {
    // Nothing is read yet.
    pub(crate) fn new(catalogue: &'a Catalogue) -> Reader<'a>
        ensures tied { Tied (described catalogue.now) result (steps (described catalogue.now)).start }
    {
        Reader {
            draft: Draft::new(catalogue),
            stage: Stage::Start,
        }
    }
}

impl<'a> TokenReader for Reader<'a> {
    ghost Given = { Described };

    ghost grammar = { queries };

    ghost steps = { steps };

    ghost StandsBehind = { Tied };

    // The clauses of the trait, which the check does not give by itself to an impl with a lifetime.
    fn form() -> Refusal
        ensures value { (x : Described) → result ≡ (queries x).form }
    {
        Refusal::QueryForm
    }

    fn limit() -> Refusal
        ensures value { (x : Described) → result ≡ (queries x).limit }
    {
        Refusal::QueryLimit
    }

    fn passes_over(token: &[u8]) -> bool
        ensures value { (x : Described) → result ≡ (queries x).skips token.now }
    {
        is_blank(token)
    }

    fn take(&mut self, token: &[u8]) -> Result<(), Refusal> {
        self.stage = self.draft.take(self.stage, token)?;
        Ok(())
    }

    fn is_whole(&self) -> bool {
        matches!(self.stage, Stage::Stopped)
    }
}
