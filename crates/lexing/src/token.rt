// Cuts a text into tokens.
ghost use Rattle.std.specs.Prelude.{◌≡◌, ◌<◌, ◌≤◌, length};
ghost use Rattle.std.specs.List.{prefix_len};
ghost use Rattle.lexing.specs.Classes.{lettered};
ghost use Rattle.lexing.specs.Tokens.{Cut, is, is_blank_token, tokens, placed};

use crate::name::Alphabet;

// How many letters and digits come first.
fn run_length(bytes: &[u8]) -> usize
    ensures value { result ≡ prefix_len lettered bytes.now }
{
    let run = bytes.iter().take_while(|byte| Alphabet::Words.has(**byte));
    run.count()
}

// How many bytes the first token has, where there is one.
#[tactic(auto, using(crate::proofs::Lexing::run_first, crate::proofs::Lexing::blank_first, crate::proofs::Lexing::arrow_first, crate::proofs::Lexing::byte_first))]
fn token_length(bytes: &[u8]) -> usize
    ensures cut { 0 < length bytes.now → Cut bytes.now 0 result }
{
    match bytes {
        [first, ..] if Alphabet::Words.has(*first) => run_length(bytes),
        [first, ..] if Alphabet::Blanks.has(*first) => 1,
        [b':', b'-', ..] => 2,
        _ => 1,
    }
}

// The place behind the token that begins at a place; behind the text it is the place itself.
pub fn token_end(text: &[u8], at: usize) -> usize
    ensures cut { at < length text.now → Cut text.now at result }
    ensures past { length text.now ≤ at → result ≡ at }
{
    if at >= text.len() {
        return at;
    }
    at + token_length(&text[at..])
}

// A token of a text, and the place of its first byte.
#[derive(Clone, Copy)]
pub struct Token<'a> {
    pub bytes: &'a [u8],
    pub place: usize,
}

// The tokens of a text, first to last: an iterator that stands at the place of the next one.
#[derive(Clone, Copy)]
pub struct Tokens<'a> {
    text: &'a [u8],
    place: usize,
}

impl<'a> Tokens<'a> {
    ghost use Rattle.lexing.specs.Left.{tokens_left};

    // All tokens of a text.
    pub fn new(text: &'a [u8]) -> Tokens<'a>
        ensures all { tokens_left result ≡ placed 0 (tokens text.now) }
    {
        Tokens { text, place: 0 }
    }
}

impl<'a> Iterator for Tokens<'a> {
    ghost use Rattle.std.specs.Iterator.{YieldsFirstBy, item_count};
    ghost use Rattle.lexing.specs.Left.{placed_token, tokens_left};

    type Item = Token<'a>;

    ghost next_gives = { YieldsFirstBy placed_token tokens_left };

    ghost remaining = { item_count tokens_left };

    #[tactic(auto, using(crate::proofs::Leaving::none_left))]
    fn next(&mut self) -> Option<Token<'a>> {
        let place = self.place;
        if place >= self.text.len() {
            return None;
        }
        self.place = token_end(self.text, place);
        Some(Token {
            bytes: &self.text[place..self.place],
            place,
        })
    }
}

// Whether a token is just one byte.
pub fn is_byte(token: &[u8], byte: u8) -> bool
    ensures value { result ≡ is byte token.now }
{
    matches!(token, [only] if *only == byte)
}

// Whether a token is a space or a newline.
pub fn is_blank(token: &[u8]) -> bool
    ensures value { result ≡ is_blank_token token.now }
{
    matches!(token, [first, ..] if Alphabet::Blanks.has(*first))
}
