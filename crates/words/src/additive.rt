// Sums, differences, negatives and halves. Ports `Add`, `Sub`, `Neg` and `halve`. Sums and differences wrap by std's functions and not by the methods
// `wrapping_add`, `wrapping_sub`: with those LLVM makes jumps of the corrections by P, and `add` takes 2.7 times as long on random words.
ghost use Rattle.std.specs.Prelude.{◌+◌, ◌-◌, ◌*◌, ◌%◌};
ghost use Rattle.prime.specs.Modulus.{P};
ghost use Rattle.prime.specs.Elements.{half};
ghost use Rattle.answers.specs.Promises.{Held};
ghost use Rattle.words.specs.Words.{add_word, sub_word, neg_word, halve_word};

use super::canonical::as_canonical_u64;
use super::constants::{NEG_ORDER, ORDER_U64};
use std::num::{wrapping_add_u64, wrapping_sub_u64};

// x + y, less P the fewest times (0, 1 or 2) that bring it below 2^64.
#[tactic(auto, using(crate::proofs::Returns::sum_within, crate::proofs::Returns::sum_wrapped, crate::proofs::Returns::sum_wrapped_twice))]
pub fn add(x: u64, y: u64) -> u64
    ensures { Held (add_word x y) ((x + y) % P) result }
{
    let sum = wrapping_add_u64(x, y);
    if x <= sum {
        return sum;
    }
    // The sum wrapped, and 2^64 - P more is P less. That wraps again only where both words are above P.
    let once = wrapping_add_u64(sum, NEG_ORDER);
    if sum <= once {
        return once;
    }
    once + NEG_ORDER
}

// x - y, plus P the fewest times (0, 1 or 2) that bring it to 0 or more.
#[tactic(auto, using(crate::proofs::Returns::sub_within, crate::proofs::Returns::sub_once_more, crate::proofs::Returns::sub_twice_more, crate::proofs::Returns::sub_element))]
pub fn sub(x: u64, y: u64) -> u64
    ensures { Held (sub_word x y) ((x + (P - 1) * y) % P) result }
{
    let difference = wrapping_sub_u64(x, y);
    if y <= x {
        return difference;
    }
    // The difference wrapped, and 2^64 - P less is P more. That wraps again only where y is above P.
    let once = wrapping_sub_u64(difference, NEG_ORDER);
    if NEG_ORDER <= difference {
        return once;
    }
    once - NEG_ORDER
}

// P minus canonical x, so zero gives P.
pub fn neg(x: u64) -> u64
    ensures { Held (neg_word x) ((P - 1) * x % P) result }
{
    ORDER_U64 - as_canonical_u64(x)
}

// (P + 1) / 2, the inverse of 2.
const HALF_P_PLUS_1: u64 = 0x7FFF_FFFF_8000_0001;

// x / 2 if the word is even, else (x + P) / 2.
#[tactic(auto, using(crate::proofs::Returns::half_of_even, crate::proofs::Returns::half_of_odd))]
pub fn halve(x: u64) -> u64
    ensures { Held (halve_word x) (x * half % P) result }
{
    // For an odd x, (x + P) / 2 = x / 2 + (P + 1) / 2, and no sum passes 2^64.
    if x % 2 == 0 {
        x / 2
    } else {
        x / 2 + HALF_P_PLUS_1
    }
}
