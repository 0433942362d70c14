// Demand 3 of document 01's operations, which are a family of `sequence`, and that no second answer fits a contract: theorems only, no code.
// The definitions are in specs/; proofs/Theorems.antt has the statements on sequences of calls, proofs/WholeNumbers.antt those on the whole-number side,
// proofs/Determined.antt those on contracts, and proofs/Placements.antt document 01's worked placements.
#![tactic(auto)]
