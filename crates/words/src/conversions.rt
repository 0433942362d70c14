// Words from other integers. Ports `QuotientMap` for i64, u128 and u64.
ghost use Rattle.std.specs.Prelude.{◌%◌};
ghost use Rattle.prime.specs.Modulus.{P};
ghost use Rattle.prime.specs.Elements.{residue};
ghost use Rattle.answers.specs.Promises.{Held};
ghost use Rattle.limbs.specs.Limbs.{limbs};
ghost use Rattle.words.specs.Words.{from_i64_word, from_u128_word};
ghost use Rattle.words.specs.Promises.{CheckedU64, CheckedI64};

use super::canonical::as_canonical_u64;
use super::constants::ORDER_U64;
use super::product::reduce128;
use answers::Refusal;

// n if n is 0 or more, else P + n.
pub fn from_i64(int: i64) -> u64
    ensures { Held (from_i64_word int) (residue int) result }
{
    if int >= 0 {
        int as u64
    } else {
        // !n = -n - 1, which is not negative and always fits.
        ORDER_U64 - 1 - (!int) as u64
    }
}

// The canonical form of reduce128, of two words like that.
pub fn from_u128(lo: u64, hi: u64) -> u64
    ensures { Held (from_u128_word lo hi) (limbs lo hi % P) result }
{
    as_canonical_u64(reduce128(lo, hi))
}

// x where it is canonical; x at or above P is refused.
#[tactic(auto, using(crate::proofs::Readers::taken, crate::proofs::Readers::not_taken))]
pub fn from_canonical_checked_u64(x: u64) -> Result<u64, Refusal>
    ensures { CheckedU64 x result }
{
    if x < ORDER_U64 {
        Ok(x)
    } else {
        Err(Refusal::OutOfRange)
    }
}

// The ends of the numbers that the checked i64 reader takes, both taken: (P - 1) / 2 on either side of zero.
const POS_BOUND: i64 = 0x7FFF_FFFF_8000_0000;

const NEG_BOUND: i64 = -POS_BOUND;

// n, or P + n where it is negative; out of range it is refused.
#[tactic(auto, using(crate::proofs::Readers::too_low, crate::proofs::Readers::too_high, crate::proofs::Readers::in_between))]
pub fn from_canonical_checked_i64(int: i64) -> Result<u64, Refusal>
    ensures { CheckedI64 int result }
{
    if int < NEG_BOUND {
        return Err(Refusal::OutOfRange);
    }
    if POS_BOUND < int {
        return Err(Refusal::OutOfRange);
    }
    Ok(from_i64(int))
}
