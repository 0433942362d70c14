// A line of text by value.
ghost use Rattle.std.specs.Prelude.{◌≡◌, ◌≤◌, [], ◌∷◌, ◌++◌, length, take};

use std::marker::Model;

// A line of at most N bytes, or a part of one. It lies in the value itself, and whoever holds it may copy it. Contracts see its bytes.
#[derive(Clone, Copy, Debug, PartialEq, Eq, PartialOrd, Ord, Hash)]
pub struct Line<const N: usize> {
    bytes: [u8; N],
    len: usize,
}

impl<const N: usize> Model for Line<N> {
    ghost use Rattle.std.specs.Prelude.{ℕ, ◌≡◌, ◌-◌, ◌≤◌, List, ◌++◌, length, take, drop, replicate};
    ghost use Rattle.std.proofs.Common.{arith, take-append-drop, length-take-le, sym, ap, ◌∙◌};

    ghost Value = { List ℕ };

    ghost view = { λ l. take l.len l.bytes };

    // Behind the bytes stand zeros.
    ghost invariant = { λ l. (l.len ≤ N) × (length l.bytes ≡ N) × (drop l.len l.bytes ≡ replicate (N - l.len) 0) };

    ghost inverse = { λ bytes. record { bytes = bytes ++ replicate (N - length bytes) 0; len = length bytes } };

    ghost inverse_ok = { λ l h i.
        let n : length (take l.len l.bytes) ≡ l.len = length-take-le l.len l.bytes (Prim.omega (arith, h.0, h.1)) in
        record {
          bytes = (ap (λ k. take l.len l.bytes ++ replicate (N - k) 0) n ∙ ap (λ rest. take l.len l.bytes ++ rest) (sym h.2) ∙ take-append-drop l.len l.bytes) i;
          len = n i;
        } };
}

impl<const N: usize> Line<N> {
    // No byte.
    pub fn new() -> Self
        ensures { result ≡ [] }
    {
        Line {
            bytes: [0; N],
            len: 0,
        }
    }

    // Puts a byte behind, where there is room for it.
    #[tactic(auto, using(crate::proofs::LineLaws::pushed, crate::proofs::LineLaws::full))]
    pub fn push(&mut self, byte: u8)
        ensures { self.new ≡ take N (self.old ++ (byte ∷ [])) }
    {
        if self.len < N {
            self.bytes[self.len] = byte;
            self.len += 1;
        }
    }

    // Puts bytes behind, as many of them as find room.
    #[tactic(auto, using(crate::proofs::LineLaws::extended, crate::proofs::LineLaws::zeros_behind))]
    pub fn extend(&mut self, bytes: &[u8])
        ensures joined { self.new ≡ take N (self.old ++ bytes.now) }
        ensures fitted { length self.old ≤ N }
    {
        let taken = (N - self.len).min(bytes.len());
        // As a slice, since a part of an array with N bytes is not lent.
        let room: &mut [u8] = &mut self.bytes;
        room[self.len..self.len + taken].copy_from_slice(&bytes[..taken]);
        self.len += taken;
    }

    // The bytes.
    pub fn as_slice(&self) -> &[u8]
        ensures value { result.now ≡ self.now }
        ensures fits { length result.now ≤ N }
    {
        &self.bytes[..self.len]
    }
}

// No byte.
impl<const N: usize> Default for Line<N> {
    ghost is_default = { λ l. l ≡ [] };

    fn default() -> Self {
        Self::new()
    }
}
