// 128 bits in two words: bits by a count, sums with their carry, the wide product. It knows nothing of P, and no operation of the port stands here: its
// functions are for the crates above, and ask nothing of them. Document 01 has two limbs where the Rust has u128, with the product by halves of 32 bits.
#![tactic(auto)]

mod bits;
mod product;
mod wide;

// The bits of a word, below and above a count.
pub use bits::{high_bits, low_bits};

// Numbers in two limbs, with their sums and their parts at bit 96; and the carry of two words.
pub use wide::{Limbs, carry};

// Products: of halves, and of words in two limbs.
pub use product::{mul_halves, mul_wide};
