//! A number for a key, by which it is looked for.

ghost use Rattle.std.specs.Prelude.{◌≡◌};
ghost use Rattle.bosh_yaml.specs.Hash.{hash};

// The prime of Fowler, Noll and Vo's hashes of 64 bits.
const PRIME: u64 = 1_099_511_628_211;

/// A number that a key has in common with few others. Whoever looks for a key by it compares the bytes too.
pub(crate) fn hash_of(key: &[u8]) -> u64
    ensures { result ≡ hash key.now }
{
    let mut hash = 0u64;
    for byte in key {
        hash = hash.wrapping_mul(PRIME).wrapping_add(u64::from(*byte));
    }
    hash
}
