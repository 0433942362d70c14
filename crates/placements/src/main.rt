// Runs document 01's "Placements worked by hand", in its order, and writes a line for each: what is asked, and what it got. Only what is asked
// stands here; what it must get stands in this crate's file `stdout`.
//
// Where writing fails, it stops, standard error says why, and the exit status is not 0.
#![tactic(auto)]

use desk_line::spell;
use goldilocks::{
    ORDER_U64, Refusal, add, decode, div_2exp_u64, dot_product, from_canonical_checked_i64,
    from_i64, halve, mul, mul_2exp_u64, neg, reduce128, sub, try_inverse, try_sqrt,
};
use std::io;
use std::io::Write;

// 2^63 - 2^31, the end of what the checked i64 reader takes.
const POSITIVE_END: i64 = 0x7FFF_FFFF_8000_0000;

// A line: what was asked, and the word or the refusal that it got.
fn answer<W: Write>(writer: &mut W, what: &[u8], got: Result<u64, Refusal>) -> io::Result<()> {
    writer.write_all(what)?;
    writer.write_all(spell(got).as_slice())
}

// The same where there is always a word.
fn word<W: Write>(writer: &mut W, what: &[u8], got: u64) -> io::Result<()> {
    answer(writer, what, Ok(got))
}

// W1 to W3.
fn sums_and_differences<W: Write>(writer: &mut W) -> io::Result<()> {
    word(writer, b"W1 add P-1, 1 = ", add(ORDER_U64 - 1, 1))?;
    word(
        writer,
        b"W2 add of 2^64-1 twice = ",
        add(u64::MAX, u64::MAX),
    )?;
    word(writer, b"W3 sub 0, 2^64-1 = ", sub(0, u64::MAX))
}

// W4 to W7.
fn negatives_products_and_halves<W: Write>(writer: &mut W) -> io::Result<()> {
    word(writer, b"W4 neg 0 = ", neg(0))?;
    word(writer, b"W4 neg P = ", neg(ORDER_U64))?;
    word(
        writer,
        b"W5 mul P-1, P-1 = ",
        mul(ORDER_U64 - 1, ORDER_U64 - 1),
    )?;
    word(
        writer,
        b"W6 mul 2^32, 2^32 = ",
        mul(0x1_0000_0000, 0x1_0000_0000),
    )?;
    word(writer, b"W7 halve 2^64-1 = ", halve(u64::MAX))
}

// W8 and W9.
fn shifts<W: Write>(writer: &mut W) -> io::Result<()> {
    word(writer, b"W8 1 shifted down by 32 = ", div_2exp_u64(1, 32))?;
    word(writer, b"W8 1 shifted down by 2 = ", div_2exp_u64(1, 2))?;
    word(writer, b"W9 0 shifted up by 96 = ", mul_2exp_u64(0, 96))?;
    word(writer, b"W9 1 shifted up by 96 = ", mul_2exp_u64(1, 96))
}

// W10 to W13.
fn dots_roots_and_signed<W: Write>(writer: &mut W) -> io::Result<()> {
    let pair = [u64::MAX; 2];
    answer(
        writer,
        b"W10 dot of two pairs, all words 2^64-1 = ",
        dot_product(&pair, &pair),
    )?;
    answer(writer, b"W11 root of P-1 = ", try_sqrt(ORDER_U64 - 1))?;
    answer(writer, b"W11 root of P = ", try_sqrt(ORDER_U64))?;
    answer(writer, b"W12 root of 7 = ", try_sqrt(7))?;
    word(writer, b"W13 from i64 -2^63 = ", from_i64(i64::MIN))
}

// The ends of the checked i64 reader.
fn checked_signed<W: Write>(writer: &mut W) -> io::Result<()> {
    answer(
        writer,
        b"checked i64 2^63-2^31 = ",
        from_canonical_checked_i64(POSITIVE_END),
    )?;
    answer(
        writer,
        b"checked i64 2^63-2^31+1 = ",
        from_canonical_checked_i64(POSITIVE_END + 1),
    )?;
    answer(
        writer,
        b"checked i64 -(2^63-2^31) = ",
        from_canonical_checked_i64(-POSITIVE_END),
    )
}

fn limbs_and_inverses<W: Write>(writer: &mut W) -> io::Result<()> {
    word(
        writer,
        b"reduce of both limbs 2^64-1 = ",
        reduce128(u64::MAX, u64::MAX),
    )?;
    answer(writer, b"inverse of 2 = ", try_inverse(2))
}

// Reads 8 bytes as a word.
fn read<W: Write>(writer: &mut W, what: &[u8], bytes: &[u8]) -> io::Result<()> {
    let mut words = [0u64; 1];
    match decode(bytes, &mut words) {
        Ok(()) => word(writer, what, words[0]),
        Err(refused) => answer(writer, what, Err(refused.refusal)),
    }
}

fn bytes<W: Write>(writer: &mut W) -> io::Result<()> {
    read(
        writer,
        b"read of bytes 00 00 00 00 FF FF FF FF = ",
        &[0, 0, 0, 0, 255, 255, 255, 255],
    )?;
    read(
        writer,
        b"read of bytes 01 00 00 00 FF FF FF FF = ",
        &[1, 0, 0, 0, 255, 255, 255, 255],
    )
}

// Dot products of ones, which count the pairs. The rule for three or more holds the count n as P + n.
fn limits<W: Write>(writer: &mut W) -> io::Result<()> {
    let most = [1u64; 4096];
    let more = [1u64; 4097];
    let one = [1u64; 1];
    answer(
        writer,
        b"dot of 4,096 pairs of ones = ",
        dot_product(&most, &most),
    )?;
    answer(
        writer,
        b"dot of 4,097 pairs of ones = ",
        dot_product(&more, &more),
    )?;
    answer(
        writer,
        b"dot of 4,097 words and 1 = ",
        dot_product(&more, &one),
    )
}

fn main(rt: HostRuntime) -> io::Result<()> {
    let mut writer = rt.stdout();
    sums_and_differences(&mut writer)?;
    negatives_products_and_halves(&mut writer)?;
    shifts(&mut writer)?;
    dots_roots_and_signed(&mut writer)?;
    checked_signed(&mut writer)?;
    limbs_and_inverses(&mut writer)?;
    bytes(&mut writer)?;
    limits(&mut writer)
}
