// The shift down. Ports `div_2exp_u64`.
ghost use Rattle.std.specs.Prelude.{◌≡◌, ◌*◌, ◌%◌, ◌^◌, ◌<◌, ◌≤◌};
ghost use Rattle.prime.specs.Modulus.{P};
ghost use Rattle.prime.specs.Elements.{half};
ghost use Rattle.prime.specs.Powers.{power};
ghost use Rattle.answers.specs.Promises.{Held};
ghost use Rattle.shifts.specs.Shifts.{split_word, shift_down_word};

use super::up::mul_2exp_u64;
use limbs::{high_bits, low_bits};
use words::{halve, sub_once};

// x * 2^count, where it fits.
fn shift_left(x: u64, count: u64) -> u64
    requires { (count < 64) × (x * 2 ^ count < 2 ^ 64) }
    ensures { result ≡ x * 2 ^ count }
{
    x << count
}

// x / 2^exp for exp from 1 to 32: with l the low exp bits of x and h the bits above, h + l * 2^(32 - exp) - l * 2^(64 - exp), plus P if
// negative. Times 2^exp that is x less l * P.
fn div_by_split(x: u64, exp: u64) -> u64
    requires { (1 ≤ exp) × (exp ≤ 32) }
    ensures { result ≡ split_word x exp }
{
    let lo = low_bits(x, exp);
    let hi = high_bits(x, exp);
    let a = hi + shift_left(lo, 32 - exp);
    let b = shift_left(lo, 64 - exp);
    sub_once(a, b)
}

// x / 2^exp. Since 2^192 = 1 modulo P, 2^(-n) = 2^(192 - n).
pub fn div_2exp_u64(x: u64, exp: u64) -> u64
    ensures { Held (shift_down_word x exp) (x * power P half exp % P) result }
{
    let rest = exp % 192;
    match rest {
        0 => x,
        1 => halve(x),
        2..=32 => div_by_split(x, rest),
        _ => mul_2exp_u64(x, 192 - rest),
    }
}
