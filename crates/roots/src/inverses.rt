// Inverses. Ports `Field::try_inverse`, by a power: `gcd_inner`, which the Rust uses, is not in its text.
ghost use Rattle.std.specs.Prelude.{◌≡◌, ◌-◌, ◌%◌};
ghost use Rattle.prime.specs.Modulus.{P};
ghost use Rattle.prime.specs.Powers.{power};
ghost use Rattle.roots.specs.Promises.{Inverted};

use super::powers::{exp_2_31_minus_1, link};
use answers::Refusal;
use words::{as_canonical_u64, is_zero};

// x^(P - 2), by a chain: in binary P - 2 is 31 ones, a zero and 32 ones.
fn exp_order_minus_2(x: u64) -> u64
    ensures { result % P ≡ power P x (P - 2) }
{
    let x31 = exp_2_31_minus_1(x);
    let x63 = link(x31, 32, x31);
    link(x63, 1, x)
}

// The element whose product with x is 1, canonical; refused for zero.
pub fn try_inverse(x: u64) -> Result<u64, Refusal>
    ensures { Inverted x result }
{
    if is_zero(x) {
        return Err(Refusal::InverseOfZero);
    }
    Ok(as_canonical_u64(exp_order_minus_2(x)))
}
