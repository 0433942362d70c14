// The answer to a line. Its length alone fixes where its words stand.
ghost use Rattle.std.specs.Prelude.{◌≡◌, length, Err};
ghost use Rattle.answers.specs.declared.refusals.Refusal.TheVariants.{Unreadable};
ghost use Rattle.desk_line.specs.Replies.{of_two, of_one, two, one, answer_to};
ghost use Rattle.desk_line.specs.Promises.{read_word};

use goldilocks::{Refusal, add, halve, mul, neg, sub, try_inverse, try_sqrt};
use text::read_column;

// The word on a line: a space and 16 digits.
fn read_word(bytes: &[u8]) -> Result<u64, Refusal>
    requires { length bytes.now ≡ 17 }
    ensures { result ≡ read_word bytes.now }
{
    read_column(bytes).ok_or(Refusal::Unreadable)
}

// The operations on two words, by name.
#[tactic(auto, using(crate::proofs::NameTests::names), unfolding(crate::specs::Replies::of_two))]
fn of_two(name: &[u8], x: u64, y: u64) -> Result<u64, Refusal>
    ensures { result ≡ of_two name.now x y }
{
    match name {
        b"add" => Ok(add(x, y)),
        b"sub" => Ok(sub(x, y)),
        b"mul" => Ok(mul(x, y)),
        _ => Err(Refusal::Unreadable),
    }
}

// The operations on one word, by name.
#[tactic(auto, using(crate::proofs::NameTests::names), unfolding(crate::specs::Replies::of_one, crate::specs::Replies::may_refuse))]
fn of_one(name: &[u8], x: u64) -> Result<u64, Refusal>
    ensures { result ≡ of_one name.now x }
{
    match name {
        b"neg" => Ok(neg(x)),
        b"half" => Ok(halve(x)),
        b"inv" => try_inverse(x),
        b"root" => try_sqrt(x),
        _ => Err(Refusal::Unreadable),
    }
}

// A name, and what follows it where there is room for two words.
fn two_words(name: &[u8], rest: &[u8]) -> Result<u64, Refusal>
    requires { length rest.now ≡ 34 }
    ensures { result ≡ two name.now rest.now (Err Unreadable) }
{
    let x = read_word(&rest[..17])?;
    let y = read_word(&rest[17..])?;
    of_two(name, x, y)
}

// A name, and what follows it where there is room for one word.
#[tactic(auto, using(crate::proofs::Parts::word))]
fn one_word(name: &[u8], rest: &[u8]) -> Result<u64, Refusal>
    requires { length rest.now ≡ 17 }
    ensures { result ≡ one name.now rest.now (Err Unreadable) }
{
    let x = read_word(rest)?;
    of_one(name, x)
}

// The held word that a line asks for, or the refusal: that of its operation, or "unreadable".
#[tactic(auto, using(crate::proofs::Shapes::unreadable))]
pub fn answer(line: &[u8]) -> Result<u64, Refusal>
    ensures { result ≡ answer_to line.now }
{
    match line.len() {
        37 => two_words(&line[..3], &line[3..]),
        20 => one_word(&line[..3], &line[3..]),
        21 => one_word(&line[..4], &line[4..]),
        _ => Err(Refusal::Unreadable),
    }
}
