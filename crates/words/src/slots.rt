// Slots of the ring: not in the Rust, added by document 01.
ghost use Rattle.words.specs.Promises.{Slotted};

use super::canonical::as_canonical_u64;
use answers::Refusal;
use limbs::low_bits;

// The low k bits of the canonical form, for k up to 32.
pub fn slot(x: u64, k: u64) -> Result<u64, Refusal>
    ensures { Slotted x k result }
{
    if 32 < k {
        return Err(Refusal::Above32);
    }
    Ok(low_bits(as_canonical_u64(x), k))
}
