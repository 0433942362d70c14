// Words as bytes, and back, by document 01's rules: an element is 8 bytes, little-endian, canonical. The Rust writes them by
// `RawDataSerializable`, and has serde to read one.
#![tactic(auto)]

mod elements;
mod lists;

// Words into a lent buffer of 8 bytes each.
pub use lists::encode;
// The words of such a buffer.
pub use lists::decode;
