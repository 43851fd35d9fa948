// Queries from their texts, and what they hold.
ghost use Rattle.std.specs.Prelude.{◌≡◌, [], map, length, slice_index_or};
ghost use Rattle.bounded.specs.Held.{held};
ghost use Rattle.query.specs.Plain.{plain_literal};
ghost use Rattle.query.specs.Records.{plain_query, variable_names};
ghost use Rattle.query.specs.Texts.{Read, OneAnswer};

use crate::ends::place_of_token;
use crate::reader::Reader;
use crate::record::Query;
use crate::term::Literal;
use catalogue::Catalogue;
use faults::{Fault, Refusal};
use lexing::read;

impl Query {
    // The query that a text spells over a catalogue, or the first of what is wrong with the text.
    pub fn read(catalogue: Catalogue, text: &[u8]) -> Result<Query, Fault>
        ensures read { Read catalogue text.now result }
    {
        let mut reader = Reader::new(&catalogue);
        read(&mut reader, text)?;
        let draft = &reader.draft;
        if let Some(i) = draft.first_missing() {
            let place = place_of_token(text, 2 * i + 2);
            return Err(Fault::placed(Refusal::HeadVariableMissing, place));
        }
        Ok(Query {
            catalogue,
            variables: draft.variables,
            head: draft.head,
            literals: draft.literals,
        })
    }

    // The catalogue that the query is over.
    pub fn catalogue(&self) -> &Catalogue
        ensures value { result.now ≡ self.now.catalogue }
    {
        &self.catalogue
    }

    // The numbers of the variables of the head.
    pub fn head(&self) -> &[u8]
        ensures value { result.now ≡ (plain_query self.now).head }
    {
        self.head.as_slice()
    }

    // The literals.
    pub fn literals(&self) -> &[Literal]
        ensures value { map plain_literal result.now ≡ (plain_query self.now).literals }
        ensures items { result.now ≡ held self.now.literals }
    {
        self.literals.as_slice()
    }

    // How many variables there are.
    pub fn variable_count(&self) -> usize
        ensures value { result ≡ length (variable_names self.now) }
    {
        self.variables.len()
    }

    // The name of a variable; empty where there is no such variable.
    pub fn variable_name(&self, variable: usize) -> &[u8]
        ensures value { result.now ≡ slice_index_or (variable_names self.now) variable [] }
    {
        let names = self.variables.as_slice();
        names.get(variable).map_or(&[], |name| name.as_slice())
    }
}

// Over every catalogue every text is the text of one query, or has one refusal, and never both.
#[tactic(auto, using(crate::proofs::Single::one_answer))]
pub fn each_text_has_one_answer()
    ensures theorem { OneAnswer }
{}
