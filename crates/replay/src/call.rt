// The operation that a name stands for, called with a line's numbers, and its outcome. A line that names none, or asks
// for a longer list than there is room for, is unreadable.
use super::line::Arguments;
use super::lists::{digest, fill_bytes, fill_words};
use super::outcome::Outcome;
use goldilocks::{
    add, as_canonical_u64, cmp, decode, div_2exp_u64, dot_product, encode, eq,
    from_canonical_checked_i64, from_canonical_checked_u64, from_i64, from_u128, halve,
    injective_exp_root_n, is_zero, mul, mul_2exp_u64, neg, reduce128, slot, square, sub, sum_array,
    try_inverse, try_sqrt, two_adic_generator, value,
};

// The most words or bytes that a list may have: 8 bytes for each of the most words that the limit of coding is tested with, 4,097, and one more.
const MOST: usize = 32777;

// What buffers hold before they are written, in every byte.
const UNTOUCHED: u64 = 0xA5A5_A5A5_A5A5_A5A5;

// Room for the longest lists that a line may ask for.
#[derive(Default, Drop)]
pub(crate) struct Room {
    words: [u64; MOST],
    others: [u64; MOST],
    bytes: [u8; MOST],
}

// The operations on words, by their names.
fn call_on_words(name: &[u8], a: u64, b: u64) -> Option<Outcome> {
    Some(match name {
        b"add" => add(a, b).into(),
        b"sub" => sub(a, b).into(),
        b"mul" => mul(a, b).into(),
        b"neg" => neg(a).into(),
        b"square" => square(a).into(),
        b"halve" => halve(a).into(),
        b"reduce128" => reduce128(a, b).into(),
        b"from_u128" => from_u128(a, b).into(),
        b"from_i64" => from_i64(a.cast_signed()).into(),
        b"mul_2exp_u64" => mul_2exp_u64(a, b).into(),
        b"div_2exp_u64" => div_2exp_u64(a, b).into(),
        b"from_canonical_checked_u64" => from_canonical_checked_u64(a).into(),
        b"from_canonical_checked_i64" => from_canonical_checked_i64(a.cast_signed()).into(),
        b"try_inverse" => try_inverse(a).into(),
        b"try_sqrt" => try_sqrt(a).into(),
        b"two_adic_generator" => two_adic_generator(a).into(),
        b"slot" => slot(a, b).into(),
        b"injective_exp_root_n" => injective_exp_root_n(a).into(),
        b"as_canonical_u64" => as_canonical_u64(a).into(),
        b"value" => value(a).into(),
        b"eq" => eq(a, b).into(),
        b"is_zero" => is_zero(a).into(),
        b"cmp" => cmp(a, b).into(),
        _ => return None,
    })
}

// The sum of words.
fn call_sum(asked: Arguments, words: &mut [u64]) -> Outcome {
    fill_words(words, asked.a, asked.c);
    sum_array(words).into()
}

// The dot product of words and others.
fn call_dot(asked: Arguments, words: &mut [u64], others: &mut [u64]) -> Outcome {
    fill_words(words, asked.a, asked.c);
    fill_words(others, asked.b, asked.c);
    dot_product(words, others).into()
}

// The words as bytes.
fn call_encode(asked: Arguments, words: &mut [u64], bytes: &mut [u8]) -> Outcome {
    fill_words(words, asked.a, asked.c);
    fill_bytes(bytes, UNTOUCHED, 0);
    let coded = encode(words, bytes);
    Outcome::of_coding(coded, digest(bytes.iter().map(|byte| u64::from(*byte))))
}

// The bytes as words.
fn call_decode(asked: Arguments, bytes: &mut [u8], words: &mut [u64]) -> Outcome {
    fill_bytes(bytes, asked.a, asked.c);
    fill_words(words, UNTOUCHED, 0);
    let coded = decode(bytes, words);
    Outcome::of_coding(coded, digest(words.iter().copied()))
}

// The call that a line asks for. The room is lent for its lists.
pub(crate) fn call(name: &[u8], asked: Arguments, room: &mut Room) -> Option<Outcome> {
    let n = asked.n as usize;
    let m = asked.m as usize;
    if MOST < n || MOST < m {
        return None;
    }
    let Room {
        words,
        others,
        bytes,
    } = room;
    // As slices, since a part of an array is not lent from behind a reference to the struct.
    let words: &mut [u64] = words;
    let others: &mut [u64] = others;
    let bytes: &mut [u8] = bytes;
    match name {
        b"sum_array" => Some(call_sum(asked, &mut words[..n])),
        b"dot_product" => Some(call_dot(asked, &mut words[..n], &mut others[..m])),
        b"encode" => Some(call_encode(asked, &mut words[..n], &mut bytes[..m])),
        b"decode" => Some(call_decode(asked, &mut bytes[..n], &mut words[..m])),
        _ => call_on_words(name, asked.a, asked.b),
    }
}
