// The lists that a line stands for, and the one word by which the contents of a list are compared.
ghost use Rattle.std.specs.Prelude.{◌≡◌, ℕ, ◌*◌, ◌/◌, ◌%◌, ◌^◌, ◌<◌, length, slice_index};
ghost use Rattle.std.specs.Iterator.{IsFinite};
ghost use Rattle.replay.specs.Lists.{term, term_byte};

// The byte at a place of a word, the lowest first.
fn byte_of(word: u64, place: usize) -> u8
    requires { place < 8 }
    ensures { result ≡ word / 2 ^ (8 * place) % 256 }
{
    ((word >> (8 * place)) % 256) as u8
}

// The words become those that begin with `first` and grow by `step`.
#[tactic(auto, using(crate::proofs::Terms::first_term))]
pub(crate) fn fill_words(words: &mut [u64], first: u64, step: u64)
    ensures { (k : ℕ) → k < length words.new → slice_index words.new k ≡ term first step k }
{
    let mut word = first;
    for item in words.iter_mut() {
        *item = word;
        word = word.wrapping_add(step);
    }
}

// The bytes become those of such words, 8 for each, little-endian; the last word may be cut.
#[tactic(auto, using(crate::proofs::Terms::first_term))]
pub(crate) fn fill_bytes(bytes: &mut [u8], first: u64, step: u64)
    ensures { (k : ℕ) → k < length bytes.new → slice_index bytes.new k ≡ term_byte first step k }
{
    let mut word = first;
    for (place, byte) in bytes.iter_mut().enumerate() {
        *byte = byte_of(word, place % 8);
        if place % 8 == 7 {
            word = word.wrapping_add(step);
        }
    }
}

// The digest before any item.
const START: u64 = 1;

// The digest after one item more. Each step can be undone, so that lists which differ in one item have different digests.
fn mixed(digest: u64, item: u64) -> u64 {
    let a = digest ^ item;
    let b = a ^ (a << 13);
    let c = b ^ (b >> 7);
    c ^ (c << 17)
}

// The digest of a list of items.
pub(crate) fn digest<I: Iterator<Item = u64>>(items: I) -> u64
    requires can { I.can_next items }
    requires finite { IsFinite (I.remaining items) }
{
    items.fold(START, mixed)
}
