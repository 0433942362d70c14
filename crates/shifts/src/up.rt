// The shift up. Ports `mul_2exp_u64`.
ghost use Rattle.std.specs.Prelude.{◌*◌, ◌%◌};
ghost use Rattle.prime.specs.Modulus.{P};
ghost use Rattle.prime.specs.Powers.{power};
ghost use Rattle.answers.specs.Promises.{Held};
ghost use Rattle.shifts.specs.Shifts.{shift_up_word};

use super::powers_of_two::power_of_two;
use words::{add, mul, neg};

// x * 2^exp. In the Goldilocks field 2^96 = -1 and 2^192 = 1 modulo P.
pub fn mul_2exp_u64(x: u64, exp: u64) -> u64
    ensures { Held (shift_up_word x exp) (x * power P 2 exp % P) result }
{
    match exp {
        0 => x,
        1 => add(x, x),
        2..=95 => mul(x, power_of_two(exp)),
        96..=191 => mul(neg(x), power_of_two(exp - 96)),
        _ => mul_2exp_u64(x, exp % 192),
    }
}
