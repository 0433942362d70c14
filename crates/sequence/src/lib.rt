// Demand 3 over any family of calls: theorems only, no code.
// The definitions are in specs/; proofs/Theorems.antt has the statements, and the rest of proofs/ what the crate of a family needs to use them.
#![tactic(auto)]
