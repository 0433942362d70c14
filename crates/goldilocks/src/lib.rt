// The port's table of contents: every public operation of document 01, in its order. Each keeps the contract of the crate that proves it.
// A word is any u64 and stands for the element x mod P; no operation asks anything of its caller.
#![tactic(auto)]

// P, 2^64 - 2^32 + 1.
pub use words::ORDER_U64;

// 01's refusals with their numbers; beside one of coding the index of the first bad group.
pub use answers::{Refusal, RefusedAt};

// x + y, less P the fewest times that bring it below 2^64.
pub use words::add;
// x - y, plus P the fewest times that bring it to 0 or more.
pub use words::sub;
// P minus canonical x.
pub use words::neg;
// Two limbs in one word.
pub use words::reduce128;
// x * y: reduce128 of the full product.
pub use words::mul;
// x * x.
pub use words::square;
// Half of x.
pub use words::halve;
// The sum of up to 4,096 words.
pub use sums::sum_array;
// The sum of the products of up to 4,096 pairs.
pub use sums::dot_product;
// A signed number: n, or P + n.
pub use words::from_i64;
// Two limbs, canonical.
pub use words::from_u128;

// x * 2^exp, for any exponent.
pub use shifts::mul_2exp_u64;
// x / 2^exp, for any exponent.
pub use shifts::div_2exp_u64;

// The element whose product with x is 1; zero has none.
pub use roots::try_inverse;
// The square root that the Rust finds, where there is one.
pub use roots::try_sqrt;
// The seventh root, which every element has.
pub use roots::injective_exp_root_n;
// The generator of the subgroup of 2^bits elements, bits up to 32.
pub use roots::two_adic_generator;

// Equality, by canonical forms: 0 and P are equal.
pub use words::eq;
// Order, by canonical forms.
pub use words::cmp;
// Whether a word is zero, as 0 and P are.
pub use words::is_zero;

// The low k bits of the canonical form, k up to 32.
pub use words::slot;

// Words into a lent buffer of 8 bytes each, canonical and little-endian.
pub use wire::encode;
// The words of such a buffer; none is written unless every group is below P.
pub use wire::decode;

// The canonical form, below P.
pub use words::as_canonical_u64;
// The checked u64 reader: a word below P only.
pub use words::from_canonical_checked_u64;
// The checked i64 reader: -(2^63 - 2^31) to 2^63 - 2^31 only.
pub use words::from_canonical_checked_i64;

// The raw word, as it is held.
pub use words::value;
