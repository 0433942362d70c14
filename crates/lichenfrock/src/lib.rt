// The library for C and Rust: every public operation of `goldilocks` as a C function, `lichenfrock_` before its name. There is a module for each crate whose
// operations go out, and in each the functions stand in document 01's order. Numbers and slices only go through, a slice as a pointer and a length. Where an
// operation can be refused the result is the refusal's number, 0 for none, and the word or the index goes out by reference. Each function promises what the
// operation promises and asks nothing of its caller (proofs/Same), and no second answer goes out of it (proofs/Out.antt).
#![tactic(auto)]

// How an answer goes out where there are numbers only: a refusal's number beside a word or an index.
mod handing;

// add, sub, neg, reduce128, mul, square, halve, from_i64, from_u128, eq, cmp, is_zero, slot, as_canonical_u64, from_canonical_checked_u64,
// from_canonical_checked_i64, value.
mod c_words;

// sum_array, dot_product.
mod c_sums;

// mul_2exp_u64, div_2exp_u64.
mod c_shifts;

// try_inverse, try_sqrt, injective_exp_root_n, two_adic_generator.
mod c_roots;

// encode, decode.
mod c_wire;
