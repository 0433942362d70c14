// Digits: the bytes that write them, and those of a number.
ghost use Rattle.std.specs.Prelude.{◌≡◌, ◌<◌, drop, MatchOption};
ghost use Rattle.text.specs.Digits.{made, IsWord, IsColumn, hex as Digits·hex, digit as Digits·digit, glyph as Digits·glyph};

// The hex digit that a byte writes, if it writes one.
#[tactic(auto, unfolding(crate::specs::Digits::digit))]
pub fn digit(byte: u8) -> Option<u64>
    ensures { MatchOption result (Digits·digit byte ≡ 16) (λ d. (d ≡ Digits·digit byte) × (d < 16)) }
{
    match byte {
        b'0'..=b'9' => Some(u64::from(byte - b'0')),
        b'A'..=b'F' => Some(u64::from(byte - b'A') + 10),
        _ => None,
    }
}

// The byte that writes a digit.
#[tactic(auto, unfolding(crate::specs::Digits::glyph))]
fn glyph(digit: u64) -> u8
    requires { digit < 16 }
    ensures { result ≡ Digits·glyph digit }
{
    if digit < 10 {
        b'0' + digit as u8
    } else {
        b'A' + (digit as u8 - 10)
    }
}

// The word that up to 16 hex digits make. There is none where there are more, or where a byte is no digit.
#[tactic(auto, using(crate::proofs::Reading::read_room))]
fn read_word(digits: &[u8]) -> Option<u64>
    ensures { MatchOption result (¬ IsWord digits.now) (λ word. IsWord digits.now × (word ≡ made 16 0 digits.now)) }
{
    if 16 < digits.len() {
        return None;
    }
    let mut word = 0;
    for &byte in digits {
        word = word * 16 + digit(byte)?;
    }
    Some(word)
}

// The word in a column of a line: a space, and then up to 16 hex digits.
pub fn read_column(column: &[u8]) -> Option<u64>
    ensures { MatchOption result (¬ IsColumn column.now) (λ word. IsColumn column.now × (word ≡ made 16 0 (drop 1 column.now))) }
{
    let [b' ', digits @ ..] = column else {
        return None;
    };
    read_word(digits)
}

// The 16 hex digits of a word, the highest in front; the lowest is written first.
// (`write!` with `{:016X}` would do, but std does not promise that it succeeds where there is room; and of what `iter_mut().rev()` leaves in an array a proof
// knows nothing, so that the loop has an index.)
#[tactic(auto, using(crate::proofs::Turns::putting))]
pub fn hex(word: u64) -> [u8; 16]
    ensures { result ≡ Digits·hex 16 word }
{
    let mut text = [0; 16];
    let mut rest = word;
    for i in (0..16).rev() {
        text[i] = glyph(rest % 16);
        rest /= 16;
    }
    text
}
