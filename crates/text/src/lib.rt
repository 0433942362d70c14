// The bytes of a line of text: digits, words in hex, numbers in decimal, and a line by value. What is done with a line is for the crates above.
#![tactic(auto)]

mod decimals;
mod digits;
mod line;

// A hex digit, and a word: read from a column of up to 16 digits, and written in 16.
pub use digits::{digit, hex, read_column};

// A line of text, by value.
pub use line::Line;

// A number in decimal.
pub use decimals::decimal;

// The byte that ends a line.
pub const LINE_END: u8 = b'\n';
