// How an answer goes out where there are numbers only: the refusal's number as the result, and the word or the index by reference. C has no `Result`, so
// that each of the two kinds of answer is taken apart here, and nowhere else.
ghost use Rattle.std.specs.Prelude.{◌≡◌};
ghost use Rattle.lichenfrock.specs.Handed.{number_and_word, number_and_index};

use goldilocks::{Refusal, RefusedAt};

// The refusal's number, 0 for none. The word is left in `word`: 0 with a refusal.
pub(crate) fn hand_word(answer: Result<u64, Refusal>, word: &mut u64) -> u64
    ensures { (result, word.new) ≡ number_and_word answer }
{
    match answer {
        Ok(w) => {
            *word = w;
            0
        }
        Err(refusal) => {
            *word = 0;
            refusal.number()
        }
    }
}

// The refusal's number, 0 for none. The index of the first bad group is left in `index`: 0 where there is none.
pub(crate) fn hand_index(coded: Result<(), RefusedAt>, index: &mut u64) -> u64
    ensures { (result, index.new) ≡ number_and_index coded }
{
    match coded {
        Ok(()) => {
            *index = 0;
            0
        }
        Err(refused) => {
            *index = refused.index;
            refused.refusal.number()
        }
    }
}
