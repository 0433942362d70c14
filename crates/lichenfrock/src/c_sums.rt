// The C functions of `sums`: sums and dot products.
ghost use Rattle.sums.specs.Promises.{Summed, Dotted};
ghost use Rattle.lichenfrock.specs.Handed.{number_and_word, Handed};

use super::handing::hand_word;
use goldilocks::{dot_product, sum_array};

// The sum of up to 4,096 words.
#[unsafe(no_mangle)]
pub extern "C" fn lichenfrock_sum_array(input: &[u64], word: &mut u64) -> u64
    ensures { Handed number_and_word (Summed input.now) (result, word.new) }
{
    hand_word(sum_array(input), word)
}

// The sum of the products of up to 4,096 pairs.
#[unsafe(no_mangle)]
pub extern "C" fn lichenfrock_dot_product(lhs: &[u64], rhs: &[u64], word: &mut u64) -> u64
    ensures { Handed number_and_word (Dotted lhs.now rhs.now) (result, word.new) }
{
    hand_word(dot_product(lhs, rhs), word)
}
