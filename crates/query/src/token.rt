// Terms as tokens.
ghost use Rattle.std.specs.Prelude.{◌≡◌, ◌<◌, ◌≤◌, true, MatchOption};
ghost use Rattle.lexing.specs.Classes.{digit};
ghost use Rattle.lexing.specs.Names.{all};
ghost use Rattle.query.specs.Reading.{is_arrow};
ghost use Rattle.query.specs.Terms.{is_variable, is_constant, value};

use lexing::{Alphabet, all_belong, is_identifier};

// Whether a token is a variable of any length.
#[tactic(auto, using(crate::proofs::Spelling::variable_identifier))]
pub(crate) fn is_variable(token: &[u8]) -> bool
    ensures value { result ≡ is_variable token.now }
{
    is_identifier(Alphabet::Upper, Alphabet::Words, token)
}

// Whether a token is a constant of any size.
#[tactic(auto, unfolding(crate::specs::Terms::is_constant))]
pub(crate) fn is_constant(token: &[u8]) -> bool
    ensures value { result ≡ is_constant token.now }
{
    match token {
        [] | [b'0', _, ..] => false,
        _ => all_belong(Alphabet::Digits, token),
    }
}

// The value that digits spell, unless it is above the largest.
pub(crate) fn constant_of(token: &[u8]) -> Option<u32>
    requires digits { all digit token.now ≡ true }
    ensures value { MatchOption result (4294967295 < value token.now) (λ v. (v ≡ value token.now) × (v ≤ 4294967295)) }
{
    let mut sum: u32 = 0;
    for byte in token {
        let digit = u32::from(*byte - b'0');
        sum = sum.checked_mul(10)?.checked_add(digit)?;
    }
    Some(sum)
}

// Whether a token is `:-`.
pub(crate) fn is_arrow(token: &[u8]) -> bool
    ensures value { result ≡ is_arrow token.now }
{
    token == b":-".as_slice()
}
