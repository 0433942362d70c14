// The C functions of `wire`: words as bytes in a lent buffer, and back.
ghost use Rattle.wire.specs.Promises.{Encoded, Decoded};
ghost use Rattle.lichenfrock.specs.Handed.{number_and_index, Handed};

use super::handing::hand_index;
use goldilocks::{decode, encode};

// Words into a lent buffer of 8 bytes each, canonical and little-endian.
#[unsafe(no_mangle)]
pub extern "C" fn lichenfrock_encode(words: &[u64], bytes: &mut [u8], index: &mut u64) -> u64
    ensures { Handed number_and_index (Encoded words.now bytes.old bytes.new) (result, index.new) }
{
    hand_index(encode(words, bytes), index)
}

// The words of such a buffer; none is written unless every group is below P.
#[unsafe(no_mangle)]
pub extern "C" fn lichenfrock_decode(bytes: &[u8], words: &mut [u64], index: &mut u64) -> u64
    ensures { Handed number_and_index (Decoded bytes.now words.old words.new) (result, index.new) }
{
    hand_index(decode(bytes, words), index)
}
