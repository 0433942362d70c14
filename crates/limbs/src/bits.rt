// The bits of a word: masks and shifts as remainder and quotient by a power of two, for any count of bits.
ghost use Rattle.std.specs.Prelude.{◌≡◌, ◌-◌, ◌/◌, ◌%◌, ◌^◌, ◌<◌};

// The low `count` bits of x: all of them from 64 on.
pub fn low_bits(x: u64, count: u64) -> u64
    ensures { (result ≡ x % 2 ^ count) × (result < 2 ^ count) }
{
    if count < 64 {
        x & ((1u64 << count) - 1)
    } else {
        x
    }
}

// The bits of x above the low `count`: none from 64 on.
pub fn high_bits(x: u64, count: u64) -> u64
    ensures { (result ≡ x / 2 ^ count) × (result < 2 ^ (64 - count)) }
{
    if count < 64 { x >> count } else { 0 }
}
