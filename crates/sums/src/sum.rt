// Sums. Ports `sum_array` and `Sum`; the Rust's u128 is two limbs.
ghost use Rattle.std.specs.Prelude.{◌≡◌, ◌+◌, ◌*◌, ◌^◌, ◌≤◌, length};
ghost use Rattle.limbs.specs.Limbs.{largest};
ghost use Rattle.sums.specs.Sums.{limit, total};
ghost use Rattle.sums.specs.Promises.{Summed};

use answers::Refusal;
use limbs::{Limbs, high_bits, low_bits};
use words::{add, reduce_wide};

// The largest number of words or pairs that are summed.
pub(crate) const LIMIT: usize = 4096;

// low + 2^32 * high in two limbs.
fn join_halves(low: u64, high: u64) -> Limbs
    requires { high ≤ largest 32 }
    ensures { result ≡ low + 2 ^ 32 * high }
{
    let hi = high_bits(high + high_bits(low, 32), 32);
    let lo = low.wrapping_add(high << 32);
    Limbs::new(lo, hi)
}

// The exact sum of the words, by halves of 32 bits. Over up to LIMIT words neither half's sum comes near 2^64, so that no carry has to be waited for
// and several words are added at a time.
#[tactic(auto, using(crate::proofs::Totals::total_more), unfolding(crate::specs::Sums::total))]
fn exact_sum(input: &[u64]) -> Limbs
    requires { length input.now ≤ limit }
    ensures { result ≡ total input.now }
{
    let mut low = 0;
    let mut high = 0;
    for &x in input {
        low += low_bits(x, 32);
        high += high_bits(x, 32);
    }
    join_halves(low, high)
}

// The sum of the words: below four by add, from four on by one reduction of the exact sum.
#[tactic(auto, unfolding(crate::specs::Sums::total, crate::specs::Sums::sum_word))]
pub fn sum_array(input: &[u64]) -> Result<u64, Refusal>
    ensures { Summed input.now result }
{
    if LIMIT < input.len() {
        return Err(Refusal::TooMany);
    }
    match input {
        [] => Ok(0),
        [x] => Ok(*x),
        [x, y] => Ok(add(*x, *y)),
        [x, y, z] => Ok(add(add(*x, *y), *z)),
        _ => Ok(reduce_wide(exact_sum(input))),
    }
}
