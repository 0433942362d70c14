// The C functions of `words`: sums, differences, products, halves; conversions; comparison and canonical form; slots; checked readers; the raw word.
ghost use Rattle.std.specs.Prelude.{◌+◌, ◌*◌, ◌-◌, ◌%◌, ◌==◌};
ghost use Rattle.prime.specs.Modulus.{P};
ghost use Rattle.prime.specs.Elements.{half, residue};
ghost use Rattle.answers.specs.Promises.{Held, Seen};
ghost use Rattle.limbs.specs.Limbs.{limbs};
ghost use Rattle.words.specs.Orders.{order};
ghost use Rattle.words.specs.Words.{canonical, add_word, sub_word, neg_word, reduce_word, mul_word, halve_word, from_i64_word, from_u128_word};
ghost use Rattle.words.specs.Promises.{CheckedU64, CheckedI64, Slotted};
ghost use Rattle.lichenfrock.specs.Handed.{number_and_word, sign, Handed};

use super::handing::hand_word;
use goldilocks::{
    add, as_canonical_u64, cmp, eq, from_canonical_checked_i64, from_canonical_checked_u64,
    from_i64, from_u128, halve, is_zero, mul, neg, reduce128, slot, square, sub, value,
};
use std::cmp::Ordering;

// The sum: x + y, less P the fewest times that bring it below 2^64.
#[unsafe(no_mangle)]
pub extern "C" fn lichenfrock_add(x: u64, y: u64) -> u64
    ensures { Held (add_word x y) ((x + y) % P) result }
{
    add(x, y)
}

// The difference: x - y, plus P the fewest times that bring it to 0 or more.
#[unsafe(no_mangle)]
pub extern "C" fn lichenfrock_sub(x: u64, y: u64) -> u64
    ensures { Held (sub_word x y) ((x + (P - 1) * y) % P) result }
{
    sub(x, y)
}

// The negative: P minus canonical x, so zero gives P.
#[unsafe(no_mangle)]
pub extern "C" fn lichenfrock_neg(x: u64) -> u64
    ensures { Held (neg_word x) ((P - 1) * x % P) result }
{
    neg(x)
}

// The limbs lo and hi in one word.
#[unsafe(no_mangle)]
pub extern "C" fn lichenfrock_reduce128(lo: u64, hi: u64) -> u64
    ensures { Held (reduce_word lo hi) (limbs lo hi % P) result }
{
    reduce128(lo, hi)
}

// The product: reduce128 of x * y.
#[unsafe(no_mangle)]
pub extern "C" fn lichenfrock_mul(x: u64, y: u64) -> u64
    ensures { Held (mul_word x y) (x * y % P) result }
{
    mul(x, y)
}

// x times x.
#[unsafe(no_mangle)]
pub extern "C" fn lichenfrock_square(x: u64) -> u64
    ensures { Held (mul_word x x) (x * x % P) result }
{
    square(x)
}

// Half of x.
#[unsafe(no_mangle)]
pub extern "C" fn lichenfrock_halve(x: u64) -> u64
    ensures { Held (halve_word x) (x * half % P) result }
{
    halve(x)
}

// A signed number: n, or P + n.
#[unsafe(no_mangle)]
pub extern "C" fn lichenfrock_from_i64(n: i64) -> u64
    ensures { Held (from_i64_word n) (residue n) result }
{
    from_i64(n)
}

// The limbs lo and hi, canonical.
#[unsafe(no_mangle)]
pub extern "C" fn lichenfrock_from_u128(lo: u64, hi: u64) -> u64
    ensures { Held (from_u128_word lo hi) (limbs lo hi % P) result }
{
    from_u128(lo, hi)
}

// Whether x and y are the same element.
#[unsafe(no_mangle)]
pub extern "C" fn lichenfrock_eq(x: u64, y: u64) -> bool
    ensures { Seen (canonical x == canonical y) (x % P == y % P) result }
{
    eq(x, y)
}

// How the canonical form of x compares with that of y: -1, 0 or 1, as the header has it.
#[unsafe(no_mangle)]
pub extern "C" fn lichenfrock_cmp(x: u64, y: u64) -> i32
    ensures { Handed sign (Seen (order (canonical x) (canonical y)) (order (x % P) (y % P))) result }
{
    match cmp(x, y) {
        Ordering::Less => -1,
        Ordering::Equal => 0,
        Ordering::Greater => 1,
    }
}

// Whether x is zero, as 0 and P are.
#[unsafe(no_mangle)]
pub extern "C" fn lichenfrock_is_zero(x: u64) -> bool
    ensures { Seen (canonical x == 0) (x % P == 0) result }
{
    is_zero(x)
}

// The low k bits of the canonical form; refused 7 above 32.
#[unsafe(no_mangle)]
pub extern "C" fn lichenfrock_slot(x: u64, k: u64, word: &mut u64) -> u64
    ensures { Handed number_and_word (Slotted x k) (result, word.new) }
{
    hand_word(slot(x, k), word)
}

// The canonical form, below P.
#[unsafe(no_mangle)]
pub extern "C" fn lichenfrock_as_canonical_u64(x: u64) -> u64
    ensures { Held (canonical x) (x % P) result }
{
    as_canonical_u64(x)
}

// A word below P; any other is refused 1.
#[unsafe(no_mangle)]
pub extern "C" fn lichenfrock_from_canonical_checked_u64(x: u64, word: &mut u64) -> u64
    ensures { Handed number_and_word (CheckedU64 x) (result, word.new) }
{
    hand_word(from_canonical_checked_u64(x), word)
}

// A number from -(2^63 - 2^31) to 2^63 - 2^31; any other is refused 1.
#[unsafe(no_mangle)]
pub extern "C" fn lichenfrock_from_canonical_checked_i64(n: i64, word: &mut u64) -> u64
    ensures { Handed number_and_word (CheckedI64 n) (result, word.new) }
{
    hand_word(from_canonical_checked_i64(n), word)
}

// The raw word, as it is held.
#[unsafe(no_mangle)]
pub extern "C" fn lichenfrock_value(held: u64) -> u64
    ensures { Held held (held % P) result }
{
    value(held)
}
