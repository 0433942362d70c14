// Dot products. Ports `dot_product`; the Rust's u128 is two limbs.
ghost use Rattle.std.specs.Prelude.{◌≡◌, ◌+◌, ◌%◌, ◌≤◌, length};
ghost use Rattle.prime.specs.Modulus.{P};
ghost use Rattle.limbs.specs.Limbs.{largest};
ghost use Rattle.sums.specs.Sums.{limit, total, products, folded_sum, less_offset};
ghost use Rattle.sums.specs.Promises.{Dotted};

use super::sum::LIMIT;
use answers::Refusal;
use limbs::{Limbs, carry, mul_wide};
use words::{ORDER_U64, mul, reduce_wide};

// 2^128 less P * (2^64 + 2^32 - 1): to add it, wrapping, is to take that multiple of P away.
const NEG_OFFSET: u64 = 0xFFFF_FFFE_0000_0001;

// p + q, less P * (2^64 + 2^32 - 1) if it is 2^128 or more.
fn add_products(p: Limbs, q: Limbs) -> Limbs
    requires { (p ≤ largest 64) × (q ≤ largest 64) }
    ensures { result ≡ less_offset (p + q) }
{
    let lo = p.lo().wrapping_add(q.lo());
    let upper = p.hi() + carry(p.lo(), q.lo());
    let hi = upper.wrapping_add(q.hi());
    let sum = Limbs::new(lo, hi);
    if upper <= hi {
        return sum;
    }
    sum.add_wide(Limbs::new(NEG_OFFSET, 0))
}

// With L the sum of the products' low 96 bits and H the sum of the parts above, L + P - H: 2^96 = -1 modulo P. Over up to LIMIT pairs neither
// sum loses a carry.
#[tactic(auto, using(crate::proofs::Totals::part_at, crate::proofs::Totals::all_products, crate::proofs::SumLaws::folded_same), unfolding(crate::specs::Sums::total))]
fn folded_dot(lhs: &[u64], rhs: &[u64]) -> Limbs
    requires { (length lhs.now ≡ length rhs.now) × (length lhs.now ≤ limit) }
    ensures folded { result ≡ folded_sum (products lhs.now rhs.now) }
    ensures element { result % P ≡ total (products lhs.now rhs.now) % P }
{
    let mut low = Limbs::new(0, 0);
    let mut high = 0;
    for (&x, &y) in lhs.iter().zip(rhs) {
        let product = mul_wide(x, y);
        low = low.add_wide(product.low_96());
        high += product.above_96();
    }
    low.add_wide(Limbs::new(ORDER_U64 - high, 0))
}

// The sum of the products, pair by pair: one by mul, two and more by one reduction.
#[tactic(auto, unfolding(crate::specs::Sums::total, crate::specs::Sums::products, crate::specs::Sums::dot_products, words::specs::Words::mul_word))]
pub fn dot_product(lhs: &[u64], rhs: &[u64]) -> Result<u64, Refusal>
    ensures { Dotted lhs.now rhs.now result }
{
    if lhs.len() != rhs.len() {
        return Err(Refusal::LengthsDiffer);
    }
    if LIMIT < lhs.len() {
        return Err(Refusal::TooMany);
    }
    match (lhs, rhs) {
        ([], _) => Ok(0),
        ([x], [y]) => Ok(mul(*x, *y)),
        ([a, b], [c, d]) => Ok(reduce_wide(add_products(mul_wide(*a, *c), mul_wide(*b, *d)))),
        _ => Ok(reduce_wide(folded_dot(lhs, rhs))),
    }
}
