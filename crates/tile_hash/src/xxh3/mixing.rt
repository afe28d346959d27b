// What all lengths share: mixing bytes with the secret.
ghost use Rattle.std.specs.Prelude.{◌≡◌, ◌+◌, ◌≤◌, length};
ghost use Rattle.tile_hash.specs.Xxh3.{finished, folded, mix};

use super::secret::secret64;
use crate::words::{word64, xor_shifted};

/// The last mixing of the bits.
#[inline(always)]
#[tactic(auto, unfolding(crate::specs::Xxh3::finished))]
pub(crate) fn finished(hash: u64) -> u64
    ensures { result ≡ finished hash }
{
    xor_shifted(
        xor_shifted(hash, 37).wrapping_mul(0x1656_6791_9E37_79F9),
        32,
    )
}

/// The low half of the product, xored with its high half.
#[inline(always)]
#[tactic(auto, unfolding(crate::specs::Xxh3::folded))]
pub(crate) fn folded(x: u64, y: u64) -> u64
    ensures { result ≡ folded x y }
{
    let wide = u128::from(x) * u128::from(y);
    (wide % (1 << 64)) as u64 ^ (wide >> 64) as u64
}

/// 16 bytes at `at` with 16 bytes of the secret at `place`.
#[inline(always)]
#[tactic(auto, unfolding(crate::specs::Xxh3::mix))]
pub(crate) fn mix(bytes: &[u8], at: usize, place: usize) -> u64
    requires bytes { at + 16 ≤ length bytes.now }
    requires secret { place + 16 ≤ 192 }
    ensures { result ≡ mix bytes.now at place }
{
    folded(
        word64(bytes, at) ^ secret64(place),
        word64(bytes, at + 8) ^ secret64(place + 8),
    )
}
