// What an operation says that may refuse. As in the Rust it answers a `Result`; here each refusal has its name and its number, in one table for all crates.
#![tactic(auto)]

mod refusals;

// The papers' refusals, with their numbers; the error of whatever answers a word.
pub use refusals::Refusal;

// A refusal with an index beside it; the error of coding.
pub use refusals::RefusedAt;
