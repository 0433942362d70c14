// Numbers below 2^128 in two limbs: their sums, with the carry between the limbs, and their parts at bit 96.
ghost use Rattle.std.specs.Prelude.{◌≡◌, ◌+◌, ◌/◌, ◌%◌, ◌^◌};
ghost use Rattle.limbs.specs.Limbs.{limbs};

use super::bits::{high_bits, low_bits};
use std::marker::Model;

// The carry of x + y: 1 if the sum is 2^64 or more, else 0.
pub fn carry(x: u64, y: u64) -> u64
    ensures { result ≡ (x + y) / 2 ^ 64 }
{
    u64::from(x.wrapping_add(y) < x)
}

// A number below 2^128 in two limbs, lo + 2^64 * hi. Contracts see the number.
#[derive(Clone, Copy)]
pub struct Limbs {
    lo: u64,
    hi: u64,
}

impl Model for Limbs {
    ghost use Rattle.std.specs.Prelude.{ℕ, ◌≡◌, ◌+◌, ◌*◌, ◌/◌, ◌%◌, ◌^◌, ◌<◌};
    ghost use Rattle.std.proofs.Common.{arith, ap₂};
    ghost use Rattle.limbs.specs.declared.wide.Limbs.TheInside.{Inside};
    ghost use Rattle.limbs.specs.Limbs.{limbs};

    ghost Value = { ℕ };

    ghost view = { λ n. limbs n.lo n.hi };

    ghost invariant = { λ n. n.lo < 2 ^ 64 };

    ghost inverse = { λ n. record { lo = n % 2 ^ 64; hi = n / 2 ^ 64 } };

    ghost inverse_ok = { λ n h. ap₂ (λ (l u : ℕ). record { lo = l; hi = u }) (Prim.omega arith) (Prim.omega arith) };
}

impl Limbs {
    // The number with these limbs.
    pub fn new(lo: u64, hi: u64) -> Self
        ensures { result ≡ limbs lo hi }
    {
        Self { lo, hi }
    }

    // The lower limb.
    pub fn lo(self) -> u64
        ensures { result ≡ self % 2 ^ 64 }
    {
        self.lo
    }

    // The upper limb.
    pub fn hi(self) -> u64
        ensures { result ≡ self / 2 ^ 64 }
    {
        self.hi
    }

    // The sum with another number, modulo 2^128.
    pub fn add_wide(self, other: Limbs) -> Limbs
        ensures { result ≡ (self + other) % 2 ^ 128 }
    {
        let lo = self.lo.wrapping_add(other.lo);
        let upper = self.hi.wrapping_add(other.hi);
        let hi = upper.wrapping_add(carry(self.lo, other.lo));
        Limbs { lo, hi }
    }

    // The low 96 bits.
    pub fn low_96(self) -> Limbs
        ensures { result ≡ self % 2 ^ 96 }
    {
        let hi = low_bits(self.hi, 32);
        Limbs { lo: self.lo, hi }
    }

    // The part above the low 96 bits.
    pub fn above_96(self) -> u64
        ensures { result ≡ self / 2 ^ 96 }
    {
        high_bits(self.hi, 32)
    }
}
