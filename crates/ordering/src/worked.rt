ghost use Rattle.std.specs.Prelude.{[], ◌∷◌};
ghost use Rattle.ordering.specs.Orders.{First, Unordered};
ghost use Rattle.ordering.specs.Worked.{notices_of_pack, modules_of_any_pack};

// What the definitions say of two queries over pack `b f`, batch `b f f` and recall `b f`.
#[tactic(auto, using(crate::proofs::Examples::first_of_notices, crate::proofs::Examples::modules_unordered))]
fn settled()
    ensures notices { First notices_of_pack (2 ∷ 1 ∷ 0 ∷ []) }
    ensures modules { Unordered modules_of_any_pack 0 }
{}

// `q(N) :- recall(B,N), batch(M,B,R), pack(1007,M).`: the first executable order of its literals.
pub fn order_of_notices() -> [u8; 3]
    ensures first { First notices_of_pack result }
{
    settled();
    [2, 1, 0]
}

// `q(M) :- pack(P,M).`: no order is executable, and this is the place that 17 is given with.
pub fn place_without_order() -> u8
    ensures unordered { Unordered modules_of_any_pack result }
{
    settled();
    0
}
