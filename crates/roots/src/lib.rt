// Inverses, roots and generators, ported from the scalar part of p3-goldilocks (`src/goldilocks.rs`). What stands here rests on the elements and
// ranges that `words` promises, and opens none of its rules for held words.
#![tactic(auto)]

mod generators;
mod inverses;
mod powers;
mod seventh_roots;
mod square_roots;

pub use generators::two_adic_generator;
pub use inverses::try_inverse;
pub use seventh_roots::injective_exp_root_n;
pub use square_roots::try_sqrt;
