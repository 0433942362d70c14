// The C functions of `shifts`: products and quotients by powers of two.
ghost use Rattle.std.specs.Prelude.{◌*◌, ◌%◌};
ghost use Rattle.prime.specs.Modulus.{P};
ghost use Rattle.prime.specs.Powers.{power};
ghost use Rattle.prime.specs.Elements.{half};
ghost use Rattle.answers.specs.Promises.{Held};
ghost use Rattle.shifts.specs.Shifts.{shift_up_word, shift_down_word};

use goldilocks::{div_2exp_u64, mul_2exp_u64};

// x times 2^exp.
#[unsafe(no_mangle)]
pub extern "C" fn lichenfrock_mul_2exp_u64(x: u64, exp: u64) -> u64
    ensures { Held (shift_up_word x exp) (x * power P 2 exp % P) result }
{
    mul_2exp_u64(x, exp)
}

// x divided by 2^exp.
#[unsafe(no_mangle)]
pub extern "C" fn lichenfrock_div_2exp_u64(x: u64, exp: u64) -> u64
    ensures { Held (shift_down_word x exp) (x * power P half exp % P) result }
{
    div_2exp_u64(x, exp)
}
