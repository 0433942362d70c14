// Numbers in decimal.
ghost use Rattle.std.specs.Prelude.{◌≡◌};
ghost use Rattle.text.specs.Decimals.{decimal};

use super::line::Line;
use itoa::Buffer;

// A number in decimal, with no zero in front: `0` for 0. The largest u64 has 20 digits.
#[tactic(auto, using(crate::proofs::DecimalLaws::held_decimal))]
pub fn decimal(n: u64) -> Line<20>
    ensures { result ≡ decimal n }
{
    let mut buffer = Buffer::new();
    let mut text = Line::new();
    text.extend(buffer.format(n).as_bytes());
    text
}
