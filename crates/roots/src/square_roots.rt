// Square roots, by the algorithm of Tonelli and Shanks. Ports `Field::try_sqrt`.
ghost use Rattle.std.specs.Prelude.{◌≡◌, ◌<◌, ◌%◌, ◌==◌, MatchOption};
ghost use Rattle.prime.specs.Modulus.{P};
ghost use Rattle.roots.specs.Roots.{order_log};
ghost use Rattle.roots.specs.Promises.{Rooted};

use super::generators::generator;
use super::powers::exp_2_31_minus_1;
use answers::Refusal;
use words::{as_canonical_u64, eq, is_zero, mul, square};

// Whether x stands for one: 1 and P + 1 do.
fn is_one(x: u64) -> bool
    ensures { result ≡ (x % P == 1) }
{
    eq(x, 1)
}

// The least i below m with t^(2^i) = 1, where there is one.
#[tactic(auto, using(crate::proofs::SquareRootSearch::begin, crate::proofs::SquareRootSearch::next, crate::proofs::SquareRootSearch::hit, crate::proofs::SquareRootSearch::miss))]
fn order_log(t: u64, m: u64) -> Option<u64>
    ensures { MatchOption result (order_log t m ≡ m) (λ i. (i ≡ order_log t m) × (i < m)) }
{
    let mut t2i = t;
    for i in 0..m {
        if is_one(t2i) {
            return Some(i);
        }
        t2i = square(t2i);
    }
    None
}

// The root of x that document 01 gives, canonical; refused where no element squares to x.
#[tactic(auto, using(crate::proofs::SquareRootTurns::start, crate::proofs::SquareRootTurns::turn))]
pub fn try_sqrt(x: u64) -> Result<u64, Refusal>
    ensures { Rooted x result }
{
    // Zero is its own square root and would otherwise break Tonelli-Shanks.
    if is_zero(x) {
        return Ok(0);
    }
    // P - 1 = (2^32 - 1) * 2^32, so the initial exponent is (2^32 - 2) / 2 = 2^31 - 1.
    let u = exp_2_31_minus_1(x);
    let mut r = mul(u, x);
    let mut t = mul(r, u);
    let mut m = 32;
    while !is_one(t) {
        // t has the order 2^i. If there is no such i below m, which only the first search can find, x is no square.
        let i = order_log(t, m).ok_or(Refusal::NoSquareRoot)?;
        // The correction is generator i + 1, and its square is generator i.
        r = mul(r, generator(i + 1));
        t = mul(t, generator(i));
        m = i;
    }
    Ok(as_canonical_u64(r))
}
