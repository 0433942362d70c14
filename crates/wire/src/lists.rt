// Lists of words as bytes in a lent buffer, and back.
ghost use Rattle.std.specs.Prelude.{◌≡◌, ◌*◌, ◌<◌, length, MatchOption};
ghost use Rattle.wire.specs.Wire.{encoded, groups, first_bad};
ghost use Rattle.wire.specs.Promises.{Encoded, Decoded};

use super::elements::{read_element, write_element};
use answers::{Refusal, RefusedAt};
use words::ORDER_U64;

// The largest number of words that are coded at once. Sums have a limit of their own, which a later request raises alone.
const LIMIT: usize = 4096;

// Writes the words, 8 bytes each.
#[tactic(auto, using(crate::proofs::Groups::words_turn), unfolding(crate::specs::Wire::encoded))]
fn write_all(words: &[u64], bytes: &mut [u8])
    requires { length bytes.old ≡ 8 * length words.now }
    ensures { bytes.new ≡ encoded words.now }
{
    for (i, word) in words.iter().enumerate() {
        write_element(*word, &mut bytes[8 * i..8 * i + 8]);
    }
}

// The index of the first of n groups that is P or more.
#[tactic(auto, using(crate::proofs::Groups::good_turn, crate::proofs::Groups::bad_found, crate::proofs::Groups::none_left))]
fn first_bad(bytes: &[u8], n: usize) -> Option<usize>
    requires { length bytes.now ≡ 8 * n }
    ensures { MatchOption result (first_bad (groups n bytes.now) ≡ n) (λ i. (i < n) × (first_bad (groups n bytes.now) ≡ i)) }
{
    for i in 0..n {
        if ORDER_U64 <= read_element(&bytes[8 * i..8 * i + 8]) {
            return Some(i);
        }
    }
    None
}

// Reads the groups, as the words that they make.
#[tactic(auto, using(crate::proofs::Groups::groups_turn), unfolding(crate::specs::Wire::groups))]
fn read_all(bytes: &[u8], words: &mut [u64])
    requires { length bytes.now ≡ 8 * length words.old }
    ensures { words.new ≡ groups (length words.old) bytes.now }
{
    for (i, word) in words.iter_mut().enumerate() {
        *word = read_element(&bytes[8 * i..8 * i + 8]);
    }
}

// Writes the words into a buffer of exactly 8 bytes for each. (The two tests stand here and in `decode`: of one function for both the compiler makes one
// choice, for which a refused call pays up to twice.)
pub fn encode(words: &[u64], bytes: &mut [u8]) -> Result<(), RefusedAt>
    ensures { Encoded words.now bytes.old bytes.new result }
{
    if LIMIT < words.len() {
        return Err(Refusal::TooMany.into());
    }
    if bytes.len() != 8 * words.len() {
        return Err(Refusal::WrongLength.into());
    }
    write_all(words, bytes);
    Ok(())
}

// Reads a word from each 8 bytes. All groups are tested before the first word is written.
pub fn decode(bytes: &[u8], words: &mut [u64]) -> Result<(), RefusedAt>
    ensures { Decoded bytes.now words.old words.new result }
{
    let n = words.len();
    if LIMIT < n {
        return Err(Refusal::TooMany.into());
    }
    if bytes.len() != 8 * n {
        return Err(Refusal::WrongLength.into());
    }
    if let Some(index) = first_bad(bytes, n) {
        return Err(RefusedAt {
            refusal: Refusal::OutOfRange,
            index: index as u64,
        });
    }
    read_all(bytes, words);
    Ok(())
}
