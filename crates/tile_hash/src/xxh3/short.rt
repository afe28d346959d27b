// XXH3 of up to 16 bytes.
ghost use Rattle.std.specs.Prelude.{◌≡◌, ◌≤◌, length};
ghost use Rattle.tile_hash.specs.Xxh3.{of_none, combined, of_three, turned, remixed, keyed, of_eight, low_word, high_word, of_sixteen, of_short};

use super::mixing::{finished, folded};
use super::secret::{SECRET, secret64};
use crate::words::{rotl, word32, word64, xor_shifted};
use crate::xxh_64::avalanche;

const MIXING_PRIME: u64 = 0x9FB2_1C65_1E98_DF25;

#[tactic(auto, unfolding(crate::specs::Xxh3::of_none))]
fn of_none() -> u64
    ensures { result ≡ of_none }
{
    avalanche(secret64(56) ^ secret64(64))
}

// The first, the middle and the last byte, and the length.
#[tactic(auto, unfolding(crate::specs::Xxh3::combined))]
fn combined(bytes: &[u8]) -> u64
    requires some { 1 ≤ length bytes.now }
    requires few { length bytes.now ≤ 3 }
    ensures { result ≡ combined bytes.now }
{
    let n = bytes.len();
    let first = u64::from(bytes[0]);
    let middle = u64::from(bytes[n / 2]);
    let last = u64::from(bytes[n - 1]);
    first * 0x1_0000 | middle * 0x100_0000 | last | n as u64 * 0x100
}

#[tactic(auto, unfolding(crate::specs::Xxh3::of_three))]
fn of_three(bytes: &[u8]) -> u64
    requires some { 1 ≤ length bytes.now }
    requires few { length bytes.now ≤ 3 }
    ensures { result ≡ of_three bytes.now }
{
    let flipped = word32(&SECRET, 0) ^ word32(&SECRET, 4);
    avalanche(combined(bytes) ^ u64::from(flipped))
}

#[tactic(auto, unfolding(crate::specs::Xxh3::turned))]
fn turned(key: u64) -> u64
    ensures { result ≡ turned key }
{
    key ^ rotl(key, 49) ^ rotl(key, 24)
}

#[tactic(auto, unfolding(crate::specs::Xxh3::remixed))]
fn remixed(key: u64, count: u64) -> u64
    ensures { result ≡ remixed key count }
{
    (key ^ (key >> 35).wrapping_add(count)).wrapping_mul(MIXING_PRIME)
}

// The last 4 bytes below the first 4, with the secret.
#[tactic(auto, unfolding(crate::specs::Xxh3::keyed))]
fn keyed(bytes: &[u8]) -> u64
    requires { 4 ≤ length bytes.now }
    ensures { result ≡ keyed bytes.now }
{
    let low = u64::from(word32(bytes, bytes.len() - 4));
    let high = u64::from(word32(bytes, 0));
    (low + high * 0x1_0000_0000) ^ (secret64(8) ^ secret64(16))
}

#[tactic(auto, unfolding(crate::specs::Xxh3::of_eight))]
fn of_eight(bytes: &[u8]) -> u64
    requires { 4 ≤ length bytes.now }
    ensures { result ≡ of_eight bytes.now }
{
    let key = turned(keyed(bytes)).wrapping_mul(MIXING_PRIME);
    xor_shifted(remixed(key, bytes.len() as u64), 28)
}

#[tactic(auto, unfolding(crate::specs::Xxh3::low_word))]
fn low_word(bytes: &[u8]) -> u64
    requires { 8 ≤ length bytes.now }
    ensures { result ≡ low_word bytes.now }
{
    word64(bytes, 0) ^ (secret64(24) ^ secret64(32))
}

#[tactic(auto, unfolding(crate::specs::Xxh3::high_word))]
fn high_word(bytes: &[u8]) -> u64
    requires { 8 ≤ length bytes.now }
    ensures { result ≡ high_word bytes.now }
{
    word64(bytes, bytes.len() - 8) ^ (secret64(40) ^ secret64(48))
}

#[tactic(auto, unfolding(crate::specs::Xxh3::of_sixteen))]
fn of_sixteen(bytes: &[u8]) -> u64
    requires { 8 ≤ length bytes.now }
    ensures { result ≡ of_sixteen bytes.now }
{
    let low = low_word(bytes);
    let high = high_word(bytes);
    finished(
        (bytes.len() as u64)
            .wrapping_add(low.swap_bytes())
            .wrapping_add(high)
            .wrapping_add(folded(low, high)),
    )
}

/// The hash of up to 16 bytes.
#[tactic(auto, unfolding(crate::specs::Xxh3::of_short))]
pub(crate) fn of_short(bytes: &[u8]) -> u64
    ensures { result ≡ of_short bytes.now }
{
    if bytes.len() == 0 {
        of_none()
    } else if bytes.len() <= 3 {
        of_three(bytes)
    } else if bytes.len() <= 8 {
        of_eight(bytes)
    } else {
        of_sixteen(bytes)
    }
}
