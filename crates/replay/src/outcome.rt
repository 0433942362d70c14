// What comes of a call, in the three numbers by which a line states it.
use answers::{Refusal, RefusedAt};
use std::cmp::Ordering;
use text::hex;

// The bytes of a spelled outcome.
const SPELLED: usize = 30;

// What a call gives: the refusal's number, 0 if there is none, the index beside it, and the word.
#[derive(Clone, Copy, PartialEq, Eq)]
pub(crate) struct Outcome {
    pub number: u64,
    pub index: u64,
    pub word: u64,
}

impl Outcome {
    // What coding answered, and the digest of the buffer, which counts where it was refused too.
    pub fn of_coding(coded: Result<(), RefusedAt>, digest: u64) -> Self {
        match coded {
            Ok(()) => digest.into(),
            Err(RefusedAt { refusal, index }) => Outcome {
                number: refusal.number(),
                index,
                word: digest,
            },
        }
    }

    // What a line that does not agree ends with: the three numbers, in as many hex digits as the line has for each, and the line's end.
    pub fn spelled(self) -> [u8; SPELLED] {
        let mut text = *b" got 00 0000 0000000000000000\n";
        // As a slice, which keeps its length for the check.
        let places: &mut [u8] = &mut text;
        places[5..7].copy_from_slice(&hex(self.number)[14..]);
        places[8..12].copy_from_slice(&hex(self.index)[12..]);
        places[13..29].copy_from_slice(&hex(self.word));
        text
    }
}

// A word, with no refusal.
impl From<u64> for Outcome {
    fn from(word: u64) -> Self {
        Outcome {
            number: 0,
            index: 0,
            word,
        }
    }
}

// 1 where it holds, else 0.
impl From<bool> for Outcome {
    fn from(holds: bool) -> Self {
        u64::from(holds).into()
    }
}

// 0 for less, 1 for equal, 2 for greater.
impl From<Ordering> for Outcome {
    fn from(order: Ordering) -> Self {
        match order {
            Ordering::Less => Outcome::from(0),
            Ordering::Equal => Outcome::from(1),
            Ordering::Greater => Outcome::from(2),
        }
    }
}

// The word, or the number of the refusal, whose word is 0.
impl From<Result<u64, Refusal>> for Outcome {
    fn from(answer: Result<u64, Refusal>) -> Self {
        match answer {
            Ok(word) => word.into(),
            Err(refusal) => Outcome {
                number: refusal.number(),
                index: 0,
                word: 0,
            },
        }
    }
}
