// A query as far as it is read, and what each token adds to it.
ghost use Rattle.std.specs.Prelude.{◌≡◌, ◌<◌, ◌≤◌, true, length, MatchResult, slice_index};
ghost use Rattle.faults.specs.declared.refusal.Refusal.TheVariants.{UnfitLiteral, QueryLimit};
ghost use Rattle.bounded.specs.Held.{held};
ghost use Rattle.lexing.specs.Lists.{names, Numbered};
ghost use Rattle.lexing.specs.Tokens.{Token, is};
ghost use Rattle.lexing.specs.Readers.{Taken};
ghost use Rattle.catalogue.specs.Records.{Described, described, columns_of};
ghost use Rattle.query.specs.declared.stage.Begun.TheVariants as atom;
ghost use Rattle.query.specs.declared.stage.Stage.TheVariants as at;
ghost use Rattle.query.specs.Rules.{Part};
ghost use Rattle.query.specs.Terms.{is_variable, is_constant};
ghost use Rattle.query.specs.Reading.{steps, Stands, TermTaken};

use crate::kinds::Kinds;
use crate::record::{HEAD_MAX, LITERAL_MAX, VARIABLE_MAX};
use crate::stage::{Begun, Stage};
use crate::term::{Literal, Term};
use crate::token::{constant_of, is_arrow, is_constant, is_variable};
use bounded::Bounded;
use catalogue::Catalogue;
use faults::Refusal;
use lexing::{NAME_MAX, Name, is_byte, is_name, number_in};

// The variables that are read, with the kinds in which they stand, those of the head, and the
// literals; and the literal that is begun. A query has the same fields but the kinds and the last, and is
// no part of a draft: what its ghost field says of them holds only when the text has ended.
#[derive(Clone, Copy)]
pub(crate) struct Draft<'a> {
    pub(crate) catalogue: &'a Catalogue,
    pub(crate) variables: Bounded<Name, VARIABLE_MAX>,
    pub(crate) kinds: Kinds,
    pub(crate) head: Bounded<u8, HEAD_MAX>,
    pub(crate) literals: Bounded<Literal, LITERAL_MAX>,
    // With its terms so far, where the stage is that of a literal. No stage carries it, since each token
    // would copy it.
    pub(crate) literal: Literal,
}

// The name of the head.
fn take_head_name(token: &[u8]) -> Result<Stage, Refusal>
    ensures taken { (cat : Described) (draft : Draft) (p : Part) → Stands cat draft at.Start p → Taken (steps cat) (Stands cat draft) p token.now result }
{
    if !is_name(token) {
        return Err(Refusal::QueryForm);
    }
    if token.len() > NAME_MAX {
        return Err(Refusal::QueryLimit);
    }
    Ok(Stage::Named(Begun::Head))
}

// A parenthesis behind a name.
fn take_open(begun: Begun, token: &[u8]) -> Result<Stage, Refusal>
    ensures taken { (cat : Described) (draft : Draft) (p : Part) → Stands cat draft (at.Named begun) p → Taken (steps cat) (Stands cat draft) p token.now result }
{
    if !is_byte(token, b'(') {
        return Err(Refusal::QueryForm);
    }
    Ok(Stage::Due(begun))
}

// `:-` behind the head.
fn take_arrow(token: &[u8]) -> Result<Stage, Refusal>
    ensures taken { (cat : Described) (draft : Draft) (p : Part) → Stands cat draft at.Headed p → Taken (steps cat) (Stands cat draft) p token.now result }
{
    if !is_arrow(token) {
        return Err(Refusal::QueryForm);
    }
    Ok(Stage::Wanted)
}

// A comma or the dot behind a literal.
fn take_closed(token: &[u8]) -> Result<Stage, Refusal>
    ensures taken { (cat : Described) (draft : Draft) (p : Part) → Stands cat draft at.Closed p → Taken (steps cat) (Stands cat draft) p token.now result }
{
    if is_byte(token, b',') {
        return Ok(Stage::Wanted);
    }
    if is_byte(token, b'.') {
        return Ok(Stage::Stopped);
    }
    Err(Refusal::QueryForm)
}

// The number of a variable, which is added if it is new.
fn number_of(variables: &mut Bounded<Name, VARIABLE_MAX>, token: &[u8]) -> Result<u8, Refusal>
    ensures numbered { MatchResult result (λ number. Numbered (names variables.old) (names variables.new) token.now 16 (Some number)) (λ refusal. (refusal ≡ QueryLimit) × Numbered (names variables.old) (names variables.new) token.now 16 None) }
{
    number_in(variables, token, VARIABLE_MAX).ok_or(Refusal::QueryLimit)
}

impl<'a> Draft<'a> {
    // Nothing is read yet.
    pub(crate) fn new(catalogue: &'a Catalogue) -> Draft<'a>
        ensures none { Stands (described catalogue.now) result at.Start (steps (described catalogue.now)).start }
    {
        Draft {
            catalogue,
            variables: Bounded::new(Bounded::new(0)),
            kinds: Kinds::new(),
            head: Bounded::new(0),
            literals: Bounded::new(Literal::new(0)),
            literal: Literal::new(0),
        }
    }

    // The name of a literal's source.
    fn take_source(&mut self, token: &[u8]) -> Result<Stage, Refusal>
        ensures taken { (cat : Described) (p : Part) → Stands cat self.old at.Wanted p → Taken (steps cat) (Stands cat self.new) p token.now result }
    {
        if !is_name(token) {
            return Err(Refusal::QueryForm);
        }
        let source = self
            .catalogue
            .find_source(token)
            .ok_or(Refusal::UnfitLiteral)?;
        if self.literals.len() >= LITERAL_MAX {
            return Err(Refusal::QueryLimit);
        }
        let source = source as u8; // below 8: `try_from` would add a refusal that never comes
        self.literal = Literal::new(source);
        Ok(Stage::Named(Begun::Literal))
    }

    // A variable of the head.
    #[tactic(auto, using(crate::proofs::Taking::fifth_held))]
    fn take_head_variable(&mut self, token: &[u8]) -> Result<Stage, Refusal>
        ensures taken { (cat : Described) (p : Part) → Stands cat self.old (at.Due atom.Head) p → Taken (steps cat) (Stands cat self.new) p token.now result }
    {
        if !is_variable(token) {
            return Err(Refusal::QueryForm);
        }
        let number = number_of(&mut self.variables, token)?;
        if !self.head.push(number) {
            return Err(Refusal::QueryLimit);
        }
        Ok(Stage::Listed(Begun::Head))
    }

    // The kind of the column in which the literal's next term stands.
    fn kind_due(&self) -> Result<u8, Refusal>
        ensures due { let kinds = (columns_of self.now.catalogue.now self.now.literal.source).kinds in
            let place = length (held self.now.literal.terms) in
            MatchResult result (λ kind. (place < length kinds) × (kind ≡ slice_index kinds place)) (λ refusal. (length kinds ≤ place) × (refusal ≡ UnfitLiteral)) }
    {
        let kinds = self.catalogue.kinds(usize::from(self.literal.source));
        kinds
            .get(self.literal.terms.len())
            .copied()
            .ok_or(Refusal::UnfitLiteral)
    }

    // A variable as a term of a literal; it takes the kind of its column.
    fn take_variable(&mut self, token: &[u8]) -> Result<Term, Refusal>
        requires form { is_variable token.now ≡ true }
        ensures taken { (cat : Described) (p : Part) → Stands cat self.old (at.Due atom.Literal) p → Taken (steps cat) (TermTaken cat self.new self.new.literal) p token.now result }
    {
        let kind = self.kind_due()?;
        let number = number_of(&mut self.variables, token)?;
        if !self.kinds.note(number, kind) {
            return Err(Refusal::VariableInTwoKinds);
        }
        Ok(Term::Variable(number))
    }

    // A constant as a term of a literal.
    fn take_constant(&self, token: &[u8]) -> Result<Term, Refusal>
        requires form { is_constant token.now ≡ true }
        ensures taken { (cat : Described) (p : Part) → Stands cat self.now (at.Due atom.Literal) p → Taken (steps cat) (TermTaken cat self.now self.now.literal) p token.now result }
    {
        self.kind_due()?;
        let value = constant_of(token).ok_or(Refusal::ConstantTooLarge)?;
        Ok(Term::Constant(value))
    }

    // A variable or a constant as a term of a literal.
    fn take_term(&mut self, token: &[u8]) -> Result<Term, Refusal>
        ensures taken { (cat : Described) (p : Part) → Stands cat self.old (at.Due atom.Literal) p → Taken (steps cat) (TermTaken cat self.new self.new.literal) p token.now result }
    {
        if is_variable(token) {
            return self.take_variable(token);
        }
        if is_constant(token) {
            return self.take_constant(token);
        }
        Err(Refusal::QueryForm)
    }

    // An item: a variable of the head, or a term that the literal which is begun then has.
    fn take_item(&mut self, begun: Begun, token: &[u8]) -> Result<Stage, Refusal>
        ensures taken { (cat : Described) (p : Part) → Stands cat self.old (at.Due begun) p → Taken (steps cat) (Stands cat self.new) p token.now result }
    {
        match begun {
            Begun::Head => self.take_head_variable(token),
            Begun::Literal => {
                let term = self.take_term(token)?;
                let _ = self.literal.terms.push(term);
                Ok(Stage::Listed(Begun::Literal))
            }
        }
    }

    // The parenthesis that ends a literal; it has a term for each column then.
    fn take_end(&mut self) -> Result<Stage, Refusal>
        ensures taken { (cat : Described) (p : Part) (t : Token) → is 41 t ≡ true → Stands cat self.old (at.Listed atom.Literal) p → Taken (steps cat) (Stands cat self.new) p t result }
    {
        let kinds = self.catalogue.kinds(usize::from(self.literal.source));
        if self.literal.terms.len() < kinds.len() {
            return Err(Refusal::UnfitLiteral);
        }
        let _ = self.literals.push(self.literal);
        Ok(Stage::Closed)
    }

    // A comma or a parenthesis behind an item.
    fn take_listed(&mut self, begun: Begun, token: &[u8]) -> Result<Stage, Refusal>
        ensures taken { (cat : Described) (p : Part) → Stands cat self.old (at.Listed begun) p → Taken (steps cat) (Stands cat self.new) p token.now result }
    {
        if is_byte(token, b',') {
            return Ok(Stage::Due(begun));
        }
        if !is_byte(token, b')') {
            return Err(Refusal::QueryForm);
        }
        match begun {
            Begun::Head => Ok(Stage::Headed),
            Begun::Literal => self.take_end(),
        }
    }

    // Takes a token at a stage; what is due next. A match, since the stages are these and no others:
    // closures or trait objects for them would only hide which there are.
    pub(crate) fn take(&mut self, stage: Stage, token: &[u8]) -> Result<Stage, Refusal>
        ensures taken { (cat : Described) (p : Part) → Stands cat self.old stage p → Taken (steps cat) (Stands cat self.new) p token.now result }
    {
        match stage {
            Stage::Start => take_head_name(token),
            Stage::Wanted => self.take_source(token),
            Stage::Named(begun) => take_open(begun, token),
            Stage::Due(begun) => self.take_item(begun, token),
            Stage::Listed(begun) => self.take_listed(begun, token),
            Stage::Headed => take_arrow(token),
            Stage::Closed => take_closed(token),
            Stage::Stopped => Err(Refusal::QueryForm),
        }
    }
}
