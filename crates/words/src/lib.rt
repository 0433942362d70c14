// What works on words one at a time, ported from the scalar part of p3-goldilocks (`src/goldilocks.rs`), in the order of document 01. A word is any u64
// and stands for the element x mod P. No operation asks anything of its caller.
#![tactic(auto)]

mod additive;
mod canonical;
mod constants;
mod conversions;
mod product;
mod slots;

// P.
pub use constants::ORDER_U64;

// Canonical form and comparison.
pub use canonical::{as_canonical_u64, cmp, eq, is_zero, value};

// Sums, differences, negatives, halves.
pub use additive::{add, halve, neg, sub};

// Products and their reduction; the reduction of a number in two limbs and the one correction of a difference are for the crates above, and no operations.
pub use product::{mul, reduce_wide, reduce128, square, sub_once};

// Conversions.
pub use conversions::{
    from_canonical_checked_i64, from_canonical_checked_u64, from_i64, from_u128,
};

// Slots.
pub use slots::slot;
