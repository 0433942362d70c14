// The desk tool's line reader, by document 01, "The desk tool": what answers a line, and what answers an input that comes in pieces.
#![tactic(auto)]

mod desk;
mod lines;
mod replies;

// The answer to a line, and an answer as a line of text.
pub use lines::answer;
pub use replies::{Reply, spell};

// An input in pieces: what is kept between them, and what is written for each.
pub use desk::{Desk, Fed};
