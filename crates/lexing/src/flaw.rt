// What a reader finds wrong with a text.
ghost use Rattle.std.specs.Prelude.{◌≡◌};
ghost use Rattle.faults.specs.Faults.{placed};
ghost use Rattle.lexing.specs.Flaws.{first_flaw};

use faults::{Fault, Refusal};

// How many bytes a text may have.
pub const TEXT_MAX: usize = 4096;

// A refusal, and the place of the token that it is for.
#[derive(Clone, Copy, PartialEq, Eq, Debug)]
pub struct Flaw {
    pub refusal: Refusal,
    pub place: usize,
}

impl From<Flaw> for Fault {
    ghost from_gives = { λ flaw fault. fault ≡ placed flaw.refusal flaw.place };

    fn from(flaw: Flaw) -> Fault {
        Fault::placed(flaw.refusal, flaw.place)
    }
}

// The flaw that counts in a text of a length: the one that was found, unless the text is too long
// and passes its limit at a lower place, or at the same with a lower number.
pub fn with_length(found: Flaw, length: usize, limit: Refusal) -> Flaw
    ensures value { result ≡ first_flaw found length limit }
{
    let in_time = (found.place, found.refusal.number()) <= (TEXT_MAX, limit.number());
    if length <= TEXT_MAX || in_time {
        return found;
    }
    Flaw {
        refusal: limit,
        place: TEXT_MAX,
    }
}
