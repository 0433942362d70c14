// The one table of refusals: a row for each, with the papers' number and under their words. A later request adds its rows here.
ghost use Rattle.std.specs.Prelude.{◌≡◌};
ghost use Rattle.answers.specs.Answers.{number};
ghost use Rattle.answers.specs.declared.refusals.RefusedAt.{RefusedAt};

// 01, "Refusal numbers", in its order.
#[derive(Clone, Copy, Debug, PartialEq, Eq)]
pub enum Refusal {
    // Not canonical, or i64 out of range.
    OutOfRange = 1,
    // Inverse of zero.
    InverseOfZero = 2,
    // No element squares to the input.
    NoSquareRoot = 3,
    // Dot: the two lengths differ.
    LengthsDiffer = 4,
    // More words or pairs than the operation takes.
    TooMany = 5,
    // A lent buffer or list is not as long as it must be: for coding, "byte buffer isn't 8 times the word count".
    WrongLength = 6,
    // Generator or slot above 32.
    Above32 = 7,
    // Desk line unreadable.
    Unreadable = 8,
}

impl Refusal {
    // The papers' number of a refusal.
    pub fn number(self) -> u64
        ensures { result ≡ number self }
    {
        self as u64
    }
}

// A refusal of coding, with an index beside it: that of the first group at or above P where one is not canonical, 0 in every other case.
#[derive(Clone, Copy, Debug, PartialEq, Eq)]
pub struct RefusedAt {
    pub refusal: Refusal,
    pub index: u64,
}

impl From<Refusal> for RefusedAt {
    ghost from_gives = { λ r e. e ≡ record { refusal = r; index = 0 } };

    fn from(refusal: Refusal) -> Self {
        RefusedAt { refusal, index: 0 }
    }
}
