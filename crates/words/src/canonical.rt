// The canonical form of a word, and what is seen by it: comparisons. Ports `PrimeField64::as_canonical_u64`, `PartialEq`, `Ord`, `is_zero`. They are named
// functions, as document 01 has it: a word is any u64, and u64's own `==` and `<` compare words as they are held.
ghost use Rattle.std.specs.Prelude.{◌%◌, ◌==◌};
ghost use Rattle.prime.specs.Modulus.{P};
ghost use Rattle.answers.specs.Promises.{Held, Seen};
ghost use Rattle.words.specs.Words.{canonical};
ghost use Rattle.words.specs.Orders.{order};

use super::constants::ORDER_U64;
use std::cmp::Ordering;

// x if it is below P, else x - P.
#[tactic(auto, using(crate::proofs::Returns::canonical_above, crate::proofs::Returns::canonical_below))]
pub fn as_canonical_u64(x: u64) -> u64
    ensures { Held (canonical x) (x % P) result }
{
    // One subtraction is enough, since 2 * P would not fit in a u64.
    if x >= ORDER_U64 { x - ORDER_U64 } else { x }
}

// Whether x and y stand for one element.
pub fn eq(x: u64, y: u64) -> bool
    ensures { Seen (canonical x == canonical y) (x % P == y % P) result }
{
    let a = as_canonical_u64(x);
    let b = as_canonical_u64(y);
    a == b
}

// The order of x and y, as elements.
pub fn cmp(x: u64, y: u64) -> Ordering
    ensures { Seen (order (canonical x) (canonical y)) (order (x % P) (y % P)) result }
{
    let a = as_canonical_u64(x);
    let b = as_canonical_u64(y);
    a.cmp(&b)
}

// Whether x stands for zero: 0 and P do.
pub fn is_zero(x: u64) -> bool
    ensures { Seen (canonical x == 0) (x % P == 0) result }
{
    let a = as_canonical_u64(x);
    a == 0
}

// The raw word, as it is held: two words of one element stay apart here.
pub fn value(held: u64) -> u64
    ensures { Held held (held % P) result }
{
    held
}
