// Reads a text token by token, in whatever grammar.
ghost use Rattle.std.specs.Prelude.{◌≡◌};
ghost use Rattle.lexing.specs.Grammars.{Grammar};
ghost use Rattle.lexing.specs.Left.{placed_token};
ghost use Rattle.lexing.specs.Readers.{Steps, Taken, TakenAt, WentThrough, HasRead};

use crate::flaw::{Flaw, TEXT_MAX, with_length};
use crate::token::{Token, Tokens};
use faults::Refusal;

// What takes the tokens of a text, one after another.
pub trait TokenReader: Drop {
    // What it knows of the text beforehand, and the grammar and its steps there.
    ghost Given: { Type 0 };

    ghost grammar: { Given → Grammar };

    ghost steps: { (x : Given) → Steps (grammar x) };

    // It stands behind a part of a text.
    ghost StandsBehind: { (x : Given) → Self → (grammar x).Part → Type 0 };

    // The refusal of a text of a wrong form.
    fn form() -> Refusal
        ensures value { (x : Given) → result ≡ (grammar x).form };

    // The refusal of a text that is too long.
    fn limit() -> Refusal
        ensures value { (x : Given) → result ≡ (grammar x).limit };

    // Whether a token is passed over.
    fn passes_over(token: &[u8]) -> bool
        ensures value { (x : Given) → result ≡ (grammar x).skips token.now };

    // Takes a token that is not passed over, or refuses it.
    fn take(&mut self, token: &[u8]) -> Result<(), Refusal>
        ensures taken { (x : Given) (p : (grammar x).Part) → StandsBehind x self.old p → Taken (steps x) (λ _. StandsBehind x self.new) p token.now result };

    // Whether nothing is missing.
    fn is_whole(&self) -> bool
        ensures value { (x : Given) (p : (grammar x).Part) → StandsBehind x self.now p → result ≡ (grammar x).whole p };
}

// Takes a token; a refusal is told with the token's place.
fn take_placed<R: TokenReader>(reader: &mut R, token: Token) -> Result<(), Flaw>
    ensures taken { (x : R.Given) (p : (R.grammar x).Part) → R.StandsBehind x reader.old p → TakenAt (R.steps x) (λ _. R.StandsBehind x reader.new) p (placed_token token.entry) result }
{
    let place = token.place;
    reader
        .take(token.bytes)
        .map_err(|refusal| Flaw { refusal, place })
}

// What the tokens of a text give, its length aside.
fn read_tokens<R: TokenReader>(reader: &mut R, text: &[u8]) -> Result<(), Flaw>
    ensures gone { (x : R.Given) → R.StandsBehind x reader.old (R.steps x).start → WentThrough (R.grammar x) (R.steps x) (λ _. R.StandsBehind x reader.new) text.now result }
{
    for token in Tokens::new(text) {
        if R::passes_over(token.bytes) {
            continue;
        }
        take_placed(reader, token)?;
    }
    if !reader.is_whole() {
        return Err(Flaw {
            refusal: R::form(),
            place: text.len(),
        });
    }
    Ok(())
}

// Reads a whole text: the reader is behind it then, or what is wrong with the text first, its length too.
// A match and no `?`, since the length judges both outcomes: it refuses a reader, and may come before a flaw.
pub fn read<R: TokenReader>(reader: &mut R, text: &[u8]) -> Result<(), Flaw>
    ensures read { (x : R.Given) → R.StandsBehind x reader.old (R.steps x).start → HasRead (R.grammar x) (R.steps x) (λ _. R.StandsBehind x reader.new) text.now result }
{
    match read_tokens(reader, text) {
        Ok(()) if text.len() > TEXT_MAX => Err(Flaw {
            refusal: R::limit(),
            place: TEXT_MAX,
        }),
        Ok(()) => Ok(()),
        Err(flaw) => Err(with_length(flaw, text.len(), R::limit())),
    }
}
