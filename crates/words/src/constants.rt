// The constants of P.

// P, the Goldilocks prime: 2^64 - 2^32 + 1.
pub const ORDER_U64: u64 = 0xFFFF_FFFF_0000_0001;

// 2^64 - P, which is 2^32 - 1: to add it, wrapping, is to take P away.
pub(crate) const NEG_ORDER: u64 = 0xFFFF_FFFF;
