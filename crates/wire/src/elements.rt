// One element as 8 bytes, and back.
ghost use Rattle.std.specs.Prelude.{◌≡◌, length};
ghost use Rattle.wire.specs.Wire.{element_bytes, number_of};

use words::as_canonical_u64;

// The number that 8 bytes make, canonical or not.
#[tactic(auto, using(crate::proofs::Bytes::number_read))]
pub(crate) fn read_element(bytes: &[u8]) -> u64
    requires { length bytes.now ≡ 8 }
    ensures { result ≡ number_of bytes.now }
{
    u64::from_le_bytes(bytes.try_into().unwrap())
}

// Writes the 8 bytes of x.
#[tactic(auto, using(crate::proofs::Bytes::element_written))]
pub(crate) fn write_element(x: u64, bytes: &mut [u8])
    requires { length bytes.old ≡ 8 }
    ensures { bytes.new ≡ element_bytes x }
{
    bytes.copy_from_slice(&as_canonical_u64(x).to_le_bytes());
}
