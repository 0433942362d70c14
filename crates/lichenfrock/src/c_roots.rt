// The C functions of `roots`: inverse, square root, seventh root, generators.
ghost use Rattle.roots.specs.Promises.{Inverted, Rooted, SeventhRoot, Generated};
ghost use Rattle.lichenfrock.specs.Handed.{number_and_word, Handed};

use super::handing::hand_word;
use goldilocks::{injective_exp_root_n, try_inverse, try_sqrt, two_adic_generator};

// The element whose product with x is 1; zero is refused 2.
#[unsafe(no_mangle)]
pub extern "C" fn lichenfrock_try_inverse(x: u64, word: &mut u64) -> u64
    ensures { Handed number_and_word (Inverted x) (result, word.new) }
{
    hand_word(try_inverse(x), word)
}

// The square root; refused 3 where no element squares to x.
#[unsafe(no_mangle)]
pub extern "C" fn lichenfrock_try_sqrt(x: u64, word: &mut u64) -> u64
    ensures { Handed number_and_word (Rooted x) (result, word.new) }
{
    hand_word(try_sqrt(x), word)
}

// The seventh root, which every element has.
#[unsafe(no_mangle)]
pub extern "C" fn lichenfrock_injective_exp_root_n(x: u64) -> u64
    ensures { SeventhRoot x result }
{
    injective_exp_root_n(x)
}

// The generator of 2^bits elements; refused 7 above 32.
#[unsafe(no_mangle)]
pub extern "C" fn lichenfrock_two_adic_generator(bits: u64, word: &mut u64) -> u64
    ensures { Handed number_and_word (Generated bits) (result, word.new) }
{
    hand_word(two_adic_generator(bits), word)
}
