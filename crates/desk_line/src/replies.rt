// An answer as a line of text.
ghost use Rattle.std.specs.Prelude.{◌≡◌, [], ◌∷◌, ◌++◌, ◌+◌, ◌<◌, length};
ghost use Rattle.desk_line.specs.Replies.{text};

use goldilocks::Refusal;
use text::{LINE_END, Line, decimal, hex};

// The longest reply: 16 digits and the line's end.
pub(crate) const LONGEST: usize = 17;

// A reply, which is a line of text.
pub type Reply = Line<LONGEST>;

// A line of two texts, one behind the other.
fn line(front: &[u8], back: &[u8]) -> Reply
    requires { length front.now + length back.now < LONGEST }
    ensures { result ≡ front.now ++ back.now ++ (10 ∷ []) }
{
    let mut reply = Reply::new();
    reply.extend(front);
    reply.extend(back);
    reply.push(LINE_END);
    reply
}

// The word's digits, or `refused` and the refusal's number.
#[tactic(auto, using(text::proofs::DigitLaws::length_digits, crate::proofs::Numbers::number_length), unfolding(crate::specs::Replies::text))]
pub fn spell(answer: Result<u64, Refusal>) -> Reply
    ensures { result ≡ text answer }
{
    match answer {
        Ok(word) => line(&hex(word), b""),
        Err(refusal) => line(b"refused ", decimal(refusal.number()).as_slice()),
    }
}
