// Catalogues from their texts, and what they hold.
ghost use Rattle.std.specs.Prelude.{◌≡◌, [], length, slice_index_or};
ghost use Rattle.std.specs.List.{slice_get};
ghost use Rattle.std.specs.Option.{option_map};
ghost use Rattle.bounded.specs.Held.{held};
ghost use Rattle.lexing.specs.Names.{place_of};
ghost use Rattle.catalogue.specs.Records.{kind_names, source_names, columns_of};
ghost use Rattle.catalogue.specs.Texts.{Read, OneAnswer};

use crate::columns::Entry;
use crate::record::Catalogue;
use crate::state::Reader;
use faults::Fault;
use lexing::{Named, position, read};
use source::Mark;

impl Catalogue {
    // The catalogue that a text spells, or the first of what is wrong with the text.
    pub fn read(text: &[u8]) -> Result<Catalogue, Fault>
        ensures read { Read text.now result }
    {
        let mut reader = Reader::new();
        read(&mut reader, text)?;
        Ok(Catalogue {
            kinds: reader.kinds,
            entries: reader.entries,
        })
    }

    // How many sources there are.
    pub fn source_count(&self) -> usize
        ensures value { result ≡ length (source_names self.now) }
    {
        self.entries.len()
    }

    // How many kinds there are.
    pub fn kind_count(&self) -> usize
        ensures value { result ≡ length (kind_names self.now) }
    {
        self.kinds.len()
    }

    // The next four lend one part each of what stands at a place, and share no helper: through one,
    // each of them would need a proof of its own.

    // The name of a source; empty where there is no such source.
    pub fn source_name(&self, source: usize) -> &[u8]
        ensures value { result.now ≡ slice_index_or (source_names self.now) source [] }
    {
        let entries = self.entries.as_slice();
        entries.get(source).map_or(&[], |entry| entry.name())
    }

    // The name of a kind; empty where there is no such kind.
    pub fn kind_name(&self, kind: usize) -> &[u8]
        ensures value { result.now ≡ slice_index_or (kind_names self.now) kind [] }
    {
        let names = self.kinds.as_slice();
        names.get(kind).map_or(&[], |name| name.as_slice())
    }

    // The marks of a source's columns; none where there is no such source.
    pub fn marks(&self, source: usize) -> &[Mark]
        ensures value { result.now ≡ (columns_of self.now source).marks }
    {
        let entries = self.entries.as_slice();
        entries
            .get(source)
            .map_or(&[], |entry| entry.columns.marks.as_slice())
    }

    // The numbers of the kinds of a source's columns; none where there is no such source.
    pub fn kinds(&self, source: usize) -> &[u8]
        ensures value { result.now ≡ (columns_of self.now source).kinds }
    {
        let entries = self.entries.as_slice();
        entries
            .get(source)
            .map_or(&[], |entry| entry.columns.kinds.as_slice())
    }

    // The number of the source that has a name.
    pub fn find_source(&self, name: &[u8]) -> Option<usize>
        ensures value { result ≡ place_of name.now (source_names self.now) }
    {
        position(self.entries.as_slice(), name)
    }

    // The number of the kind that has a name.
    pub fn find_kind(&self, name: &[u8]) -> Option<usize>
        ensures value { result ≡ place_of name.now (kind_names self.now) }
    {
        position(self.kinds.as_slice(), name)
    }
}

// Every text is the text of one catalogue, or has one refusal, and never both.
#[tactic(auto, using(crate::proofs::Answering::one_answer))]
pub fn each_text_has_one_answer()
    ensures theorem { OneAnswer }
{}
