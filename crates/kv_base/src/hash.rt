//! The hash of Fowler, Noll and Vo.

ghost use Rattle.std.specs.Prelude.{◌≡◌};
ghost use Rattle.kv_base.specs.Hash.{fnv1a, stripe};

/// The factor of FNV-1a in 32 bits.
const FACTOR: u32 = 16777619;

/// The usual offset of FNV-1a in 32 bits.
const OFFSET: u32 = 2166136261;

const STRIPES: u32 = 16;

/// The FNV-1a hash of these bytes in 32 bits, from an offset on, which is 2166136261 where nothing else is said.
///
/// See <http://www.isthe.com/chongo/tech/comp/fnv/>.
#[tactic(auto, unfolding(crate::specs::Hash::fnv1a))]
pub fn fnv1a(offset: u32, bytes: &[u8]) -> u32
    ensures { result ≡ fnv1a offset bytes.now }
{
    bytes.iter().fold(
        offset,
        |hash, byte| (hash ^ u32::from(*byte)).wrapping_mul(FACTOR),
    )
}

/// The stripe of a key, from 0 to 15: its hash modulo 16. Keys of one stripe are locked together.
pub fn stripe(key: &[u8]) -> u8
    ensures { result ≡ stripe key.now }
{
    (fnv1a(OFFSET, key) % STRIPES) as u8
}
