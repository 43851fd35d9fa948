// Names, and lists of names.
ghost use Rattle.std.specs.Prelude.{◌≡◌, ℕ, ◌<◌, ◌≤◌, true, List as Many, map, length, MatchOption};
ghost use Rattle.std.specs.Str.{bytes_eq};
ghost use Rattle.lexing.specs.Names.{all, belongs as inside, is_identifier, is_name, place_of};
ghost use Rattle.bounded.specs.Held.{held};
ghost use Rattle.lexing.specs.Lists.{names as named, Numbered};

use crate::class::{Class, class_of};
use bounded::Bounded;

// How many bytes a name or a variable may have.
pub const NAME_MAX: usize = 16;

pub type Name = Bounded<u8, NAME_MAX>;

// Which bytes may stand at a place of a token.
#[derive(Clone, Copy, PartialEq, Eq, Debug)]
pub enum Alphabet {
    // Lower-case letters and digits.
    Names,
    // Letters and digits.
    Words,
    Digits,
    // Lower-case letters.
    Lower,
    // Upper-case letters.
    Upper,
    // A space and a newline.
    Blanks,
}

impl Alphabet {
    // Whether a byte is of the alphabet.
    pub fn has(self, byte: u8) -> bool
        ensures value { result ≡ inside self byte }
    {
        let class = class_of(byte);
        match self {
            Alphabet::Names => matches!(class, Class::Lower | Class::Digit),
            Alphabet::Words => matches!(class, Class::Lower | Class::Upper | Class::Digit),
            Alphabet::Digits => class == Class::Digit,
            Alphabet::Lower => class == Class::Lower,
            Alphabet::Upper => class == Class::Upper,
            Alphabet::Blanks => class == Class::Blank,
        }
    }
}

// Whether all bytes are of an alphabet.
pub fn all_belong(alphabet: Alphabet, bytes: &[u8]) -> bool
    ensures value { result ≡ all (inside alphabet) bytes.now }
{
    bytes.iter().all(|byte| alphabet.has(*byte))
}

// Whether a token begins with a byte of one alphabet, and all others are of another.
pub fn is_identifier(first: Alphabet, others: Alphabet, token: &[u8]) -> bool
    ensures value { result ≡ is_identifier first others token.now }
{
    match token {
        [] => false,
        [byte, rest @ ..] => first.has(*byte) && all_belong(others, rest),
    }
}

// Whether a token is a name of any length.
#[tactic(auto, using(crate::proofs::Naming::name_identifier))]
pub fn is_name(token: &[u8]) -> bool
    ensures value { result ≡ is_name token.now }
{
    is_identifier(Alphabet::Lower, Alphabet::Names, token)
}

// The bytes of a token as a name, unless they are too many.
pub fn to_name(token: &[u8]) -> Option<Name>
    ensures value { MatchOption result (16 < length token.now) (λ n. (length token.now ≤ 16) × (held n ≡ token.now)) }
{
    Bounded::from_slice(token, 0)
}

// What has a name.
pub trait Named {
    ghost name_of: { Self → Many ℕ };

    fn name(&self) -> &[u8]
        ensures value { result.now ≡ name_of self.now };
}

impl Named for Name {
    ghost name_of = { held };

    fn name(&self) -> &[u8] {
        self.as_slice()
    }
}

fn is_named<T: Named>(item: &T, name: &[u8]) -> bool
    ensures value { result ≡ bytes_eq name.now (T.name_of item.now) }
{
    name == item.name()
}

// The first place in a list at which something has a name.
pub fn position<T: Named>(list: &[T], name: &[u8]) -> Option<usize>
    ensures value { result ≡ place_of name.now (map T.name_of list.now) }
{
    list.iter().position(|item| is_named(item, name))
}

// The number of a name in a list of names: its place, or the next one, at which it is then added.
// There is none for a name of too many bytes, and for a new one where the limit is reached.
#[tactic(auto, using(crate::proofs::Holding::found_below, crate::proofs::Holding::number_full, crate::proofs::Holding::number_crowded))]
pub fn number_in(list: &mut Bounded<Name, 16>, token: &[u8], limit: usize) -> Option<u8>
    ensures value { Numbered (named list.old) (named list.new) token.now limit result }
{
    let name = to_name(token)?;
    if let Some(i) = position(list.as_slice(), token) {
        return Some(i as u8); // below 16: `try_from` would add a refusal that never comes
    }
    let count = list.len();
    if count >= limit || !list.push(name) {
        return None;
    }
    Some(count as u8)
}
