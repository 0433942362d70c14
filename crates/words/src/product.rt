// Products and their reduction to a word. Ports `reduce128` with its two corrections, `Mul` and `square`.
ghost use Rattle.std.specs.Prelude.{◌≡◌, ◌+◌, ◌*◌, ◌%◌, ◌^◌, ◌<◌, ◌≤◌};
ghost use Rattle.prime.specs.Modulus.{P};
ghost use Rattle.answers.specs.Promises.{Held};
ghost use Rattle.limbs.specs.Limbs.{limbs};
ghost use Rattle.words.specs.Words.{less_P, plus_P, reduce_word, wide_word, mul_word};

use super::constants::NEG_ORDER;
use limbs::{Limbs, high_bits, mul_halves, mul_wide};

// x + y, less P if it is 2^64 or more. One correction is enough only where x + y < 2^64 + P.
fn add_no_canonicalize_trashing_input(x: u64, y: u64) -> u64
    requires { x + y < 2 ^ 64 + P }
    ensures { result ≡ less_P (x + y) }
{
    let res_wrapped = x.wrapping_add(y);
    if x <= res_wrapped {
        res_wrapped
    } else {
        res_wrapped + NEG_ORDER
    }
}

// x - y, plus P if it is negative. One correction is enough only where y <= x + P.
pub fn sub_once(x: u64, y: u64) -> u64
    ensures { y ≤ x + P → result ≡ plus_P x y }
{
    let taken = x.wrapping_sub(y);
    if y <= x {
        taken
    } else {
        taken.wrapping_sub(NEG_ORDER)
    }
}

// lo + 2^64 * hi in one word: with hi = hh * 2^32 + hl, lo - hh + hl * (2^32 - 1), since 2^96 = -1 and 2^64 = 2^32 - 1 modulo P. As an operation of
// document 01 it takes two words.
pub fn reduce128(lo: u64, hi: u64) -> u64
    ensures { Held (reduce_word lo hi) (limbs lo hi % P) result }
{
    let t0 = sub_once(lo, high_bits(hi, 32));
    let t1 = mul_halves(hi, NEG_ORDER);
    add_no_canonicalize_trashing_input(t0, t1)
}

// The same of a number in two limbs, for the crates above.
pub fn reduce_wide(n: Limbs) -> u64
    ensures { Held (wide_word n) (n % P) result }
{
    reduce128(n.lo(), n.hi())
}

// reduce128 of the full product.
#[tactic(auto, unfolding(crate::specs::Words::mul_word))]
pub fn mul(x: u64, y: u64) -> u64
    ensures { Held (mul_word x y) (x * y % P) result }
{
    reduce_wide(mul_wide(x, y))
}

// mul x, x.
pub fn square(x: u64) -> u64
    ensures { Held (mul_word x x) (x * x % P) result }
{
    mul(x, x)
}
