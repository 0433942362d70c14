// Shifts by powers of two, for any exponent, ported from the scalar part of p3-goldilocks (`src/goldilocks.rs`). In the Goldilocks field 2^96 = -1 and
// 2^192 = 1 modulo P.
#![tactic(auto)]

mod down;
mod powers_of_two;
mod up;

// x * 2^exp.
pub use up::mul_2exp_u64;
// x / 2^exp.
pub use down::div_2exp_u64;
