// Sums and dot products of any number of words up to the limit, ported from the scalar part of p3-goldilocks (`src/goldilocks.rs`). A list is summed exactly
// in two limbs and reduced once.
#![tactic(auto)]

mod dot;
mod sum;

// The sum of the words.
pub use sum::sum_array;
// The sum of the products, pair by pair.
pub use dot::dot_product;
