// The full product of two words in two limbs. Ports `mul_wide`.
ghost use Rattle.std.specs.Prelude.{◌≡◌, ◌+◌, ◌*◌, ◌%◌, ◌^◌, ◌≤◌};
ghost use Rattle.limbs.specs.Limbs.{largest};

use super::bits::{high_bits, low_bits};
use super::wide::Limbs;

// The product of the lower halves of a and b. Two carries of 32 bits may be added to it.
pub fn mul_halves(a: u64, b: u64) -> u64
    ensures { (result ≡ a % 2 ^ 32 * (b % 2 ^ 32)) × (result ≤ largest 32) }
{
    low_bits(a, 32) * low_bits(b, 32)
}

// The sum of four partial products, hh * 2^64 + (lh + hl) * 2^32 + ll. The upper limb is the ladder of the Rust's wasm arm, the low limb a
// sum of its own: with the low limb taken from the ladder too, LLVM would not find that `mul_wide` is one multiply.
fn join(ll: u64, lh: u64, hl: u64, hh: u64) -> Limbs
    requires { (ll ≤ largest 32) × (lh ≤ largest 32) × (hl ≤ largest 32) × (hh ≤ largest 32) }
    ensures { result ≡ 2 ^ 64 * hh + 2 ^ 32 * (lh + hl) + ll }
{
    let t0 = hl + high_bits(ll, 32);
    let t1 = lh + low_bits(t0, 32);
    let hi = hh + high_bits(t0, 32) + high_bits(t1, 32);
    let lo = ll.wrapping_add(lh.wrapping_add(hl) << 32);
    Limbs::new(lo, hi)
}

// The full product of x and y, by halves of 32 bits.
pub fn mul_wide(x: u64, y: u64) -> Limbs
    ensures { (result ≡ x * y) × (result ≤ largest 64) }
{
    let x_hi = high_bits(x, 32);
    let y_hi = high_bits(y, 32);
    let ll = mul_halves(x, y);
    let lh = mul_halves(x, y_hi);
    let hl = mul_halves(x_hi, y);
    let hh = mul_halves(x_hi, y_hi);
    join(ll, lh, hl, hh)
}
