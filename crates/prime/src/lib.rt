// Arithmetic modulo P = 2^64 - 2^32 + 1 over the natural numbers: theorems only, no code.
// The definitions are in specs/; proofs/Theorems.antt has each statement at P, in one order, and the other files of proofs/ what is
// proved over any modulus.
#![tactic(auto)]
