// Seventh roots. Ports `PermutationMonomial<7>`.
ghost use Rattle.roots.specs.Promises.{SeventhRoot};

use super::powers::exp_u64;
use words::as_canonical_u64;

// 7 * SEVENTH = 4 * (P - 1) + 1, so that this power undoes a seventh power.
const SEVENTH: u64 = 10540996611094048183;

// The element whose seventh power is x, canonical: x^SEVENTH.
pub fn injective_exp_root_n(x: u64) -> u64
    ensures { SeventhRoot x result }
{
    as_canonical_u64(exp_u64(x, SEVENTH))
}
