// Generators of the two-adic subgroups. Ports `TWO_ADIC_GENERATORS` and `two_adic_generator`.
ghost use Rattle.std.specs.Prelude.{◌≡◌, ◌≤◌};
ghost use Rattle.roots.specs.Roots.{generator_word};
ghost use Rattle.roots.specs.Promises.{Generated};

use answers::Refusal;

// The generators, canonical: entry 0 is 1, and each later entry squares to the one before. The compiler keeps them in read-only memory, and an entry is
// one load.
static TWO_ADIC_GENERATORS: [u64; 33] = [
    0x0000_0000_0000_0001,
    0xFFFF_FFFF_0000_0000,
    0x0001_0000_0000_0000,
    0xFFFF_FFFE_FF00_0001,
    0xEFFF_FFFF_0000_0001,
    0x0000_3FFF_FFFF_C000,
    0x0000_0080_0000_0000,
    0xF800_07FF_0800_0001,
    0xBF79_143C_E60C_A966,
    0x1905_D02A_5C41_1F4E,
    0x9D8F_2AD7_8BFE_D972,
    0x0653_B480_1DA1_C8CF,
    0xF2C3_5199_959D_FCB6,
    0x1544_EF23_35D1_7997,
    0xE0EE_0993_10BB_A1E2,
    0xF6B2_CFFE_2306_BAAC,
    0x54DF_9630_BF79_450E,
    0xABD0_A6E8_AA3D_8A0E,
    0x8128_1A7B_05F9_BEAC,
    0xFBD4_1C6B_8CAA_3302,
    0x30BA_2ECD_5E93_E76D,
    0xF502_AEF5_3232_2654,
    0x4B2A_18AD_E672_46B5,
    0xEA9D_5A13_36FB_C98B,
    0x86CD_CC31_C307_E171,
    0x4BBA_F597_6ECF_EFD8,
    0xED41_D05B_78D6_E286,
    0x10D7_8DD8_915A_171D,
    0x5904_9500_004A_4485,
    0xDFA8_C93B_A46D_2666,
    0x7E9B_D009_B86A_0845,
    0x400A_7F75_5588_E659,
    0x1856_29DC_DA58_878C,
];

// An entry of the table.
#[tactic(auto, using(crate::proofs::Generated::table_at))]
pub(crate) fn generator(bits: u64) -> u64
    requires { bits ≤ 32 }
    ensures { result ≡ generator_word bits }
{
    TWO_ADIC_GENERATORS[bits as usize]
}

// The generator of the subgroup of 2^bits elements, for bits up to 32.
#[tactic(auto, using(crate::proofs::Generated::generator_below))]
pub fn two_adic_generator(bits: u64) -> Result<u64, Refusal>
    ensures { Generated bits result }
{
    if 32 < bits {
        return Err(Refusal::Above32);
    }
    Ok(generator(bits))
}
