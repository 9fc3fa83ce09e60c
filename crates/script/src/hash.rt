// FNV-1a, 64 bits.
ghost use Rattle.std.specs.Prelude.{◌≡◌};
ghost use Rattle.script.specs.Hash.{hashed, mixed};

const BASIS: u64 = 0xcbf2_9ce4_8422_2325;

const PRIME: u64 = 0x0000_0100_0000_01b3;

// The hash with one byte more.
fn mix(hash: u64, byte: u8) -> u64
    ensures { result ≡ mixed hash byte }
{
    (hash ^ byte as u64).wrapping_mul(PRIME)
}

// The hash of some bytes.
#[tactic(auto, unfolding(crate::specs::Hash::hashed))]
pub fn fnv(bytes: &[u8]) -> u64
    ensures { result ≡ hashed bytes.now }
{
    bytes.iter().fold(BASIS, |hash, byte| mix(hash, *byte))
}
