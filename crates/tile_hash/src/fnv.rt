// FNV-1a with 64 bits.
ghost use Rattle.std.specs.Prelude.{◌≡◌};
ghost use Rattle.tile_hash.specs.Fnv.{fnv1a, hashed_from};

pub(crate) const OFFSET_BASIS: u64 = 14_695_981_039_346_656_037;

const FNV_PRIME: u64 = 1_099_511_628_211;

/// The hash after these bytes, from the one before them.
#[inline(never)]
pub(crate) fn hashed_from(start: u64, bytes: &[u8]) -> u64
    ensures { result ≡ hashed_from start bytes.now }
{
    let mut hash = start;
    for byte in bytes {
        hash = (hash ^ u64::from(*byte)).wrapping_mul(FNV_PRIME);
    }
    hash
}

/// The FNV-1a hash of these bytes with 64 bits (draft-eastlake-fnv).
pub fn fnv1a(bytes: &[u8]) -> u64
    ensures { result ≡ fnv1a bytes.now }
{
    hashed_from(OFFSET_BASIS, bytes)
}
