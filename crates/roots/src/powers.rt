// Powers, as helpers: document 01 gives no rule for a power, so none is public. Ports `exp_2_31_minus_1`, and `exp_u64` and `exp_power_of_2`, which
// the Rust takes from p3-field.
ghost use Rattle.std.specs.Prelude.{◌≡◌, ◌-◌, ◌*◌, ◌%◌, ◌^◌};
ghost use Rattle.prime.specs.Modulus.{P};
ghost use Rattle.prime.specs.Powers.{power};

use words::{mul, square};

// x^exp, by squaring and multiplying.
#[tactic(auto, using(crate::proofs::Exponents::started, crate::proofs::Exponents::odd, crate::proofs::Exponents::even, crate::proofs::Exponents::ended))]
pub(crate) fn exp_u64(x: u64, exp: u64) -> u64
    ensures { result % P ≡ power P x exp }
{
    let mut current = x;
    let mut product = 1;
    let mut rest = exp;
    while 0 < rest {
        if rest % 2 == 1 {
            product = mul(product, current);
        }
        current = square(current);
        rest = rest / 2;
    }
    product
}

// x^(2^log), by repeated squaring.
#[tactic(auto, using(crate::proofs::Exponents::first, crate::proofs::Exponents::doubled))]
fn exp_power_of_2(x: u64, log: u64) -> u64
    ensures { result % P ≡ power P x (2 ^ log) }
{
    let mut res = x;
    for _ in 0..log {
        res = square(res);
    }
    res
}

// A link of a chain: y^(2^log) * z, which puts the bits of z's exponent after those of y's.
#[tactic(auto, using(prime::proofs::Powers::power_mod))]
pub(crate) fn link(y: u64, log: u64, z: u64) -> u64
    ensures { result % P ≡ power P y (2 ^ log) * z % P }
{
    mul(exp_power_of_2(y, log), z)
}

// x^(2^31 - 1), by a fixed chain: each exponent here is a row of ones in binary, 2, 3, 6, 12, 24, 30 and 31 of them.
pub(crate) fn exp_2_31_minus_1(x: u64) -> u64
    ensures { result % P ≡ power P x (2 ^ 31 - 1) }
{
    let x2 = link(x, 1, x);
    let x3 = link(x2, 1, x);
    let x6 = link(x3, 3, x3);
    let x12 = link(x6, 6, x6);
    let x24 = link(x12, 12, x12);
    let x30 = link(x24, 6, x6);
    link(x30, 1, x)
}
