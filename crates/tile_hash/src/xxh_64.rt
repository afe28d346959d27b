// XXH64 with seed 0, a stripe of 32 bytes at a time.
ghost use Rattle.std.specs.Prelude.{◌≡◌, ◌+◌, ◌/◌, ◌≤◌, length};
ghost use Rattle.tile_hash.specs.Xxh64.{round, striped, lanes_after, merged, converged, begun, word_taken, half_taken, byte_taken, after_whole_words, after_half, after_rest, avalanche, xxh64};

mod stream;

use crate::words::{
    PRIME64_1, PRIME64_2, PRIME64_3, PRIME64_4, PRIME64_5, rotl, word32, word64, xor_shifted,
};
pub(crate) use stream::Xxh64Stream;

const FIRST_LANES: [u64; 4] = [
    PRIME64_1.wrapping_add(PRIME64_2),
    PRIME64_2,
    0,
    0u64.wrapping_sub(PRIME64_1),
];

#[inline(always)]
#[tactic(auto, unfolding(crate::specs::Xxh64::round))]
fn round(lane: u64, word: u64) -> u64
    ensures { result ≡ round lane word }
{
    rotl(lane.wrapping_add(word.wrapping_mul(PRIME64_2)), 31).wrapping_mul(PRIME64_1)
}

// The lanes after the stripe at this byte.
#[inline(always)]
#[tactic(auto, unfolding(crate::specs::Xxh64::striped))]
fn striped(v: [u64; 4], bytes: &[u8], at: usize) -> [u64; 4]
    requires { at + 32 ≤ length bytes.now }
    ensures { result ≡ striped v bytes.now at }
{
    [
        round(v[0], word64(bytes, at)),
        round(v[1], word64(bytes, at + 8)),
        round(v[2], word64(bytes, at + 16)),
        round(v[3], word64(bytes, at + 24)),
    ]
}

// The lanes after all whole stripes.
#[tactic(auto, using(crate::proofs::StepLemmas::lanes_more), unfolding(crate::specs::Xxh64::lanes_after))]
fn lanes(bytes: &[u8]) -> [u64; 4]
    ensures { result ≡ lanes_after bytes.now (length bytes.now / 32) }
{
    let mut v = FIRST_LANES;
    for i in 0..bytes.len() / 32 {
        let next = striped(v, bytes, 32 * i);
        v = next;
    }
    v
}

#[inline(always)]
#[tactic(auto, unfolding(crate::specs::Xxh64::merged))]
fn merged(hash: u64, lane: u64) -> u64
    ensures { result ≡ merged hash lane }
{
    (hash ^ round(0, lane))
        .wrapping_mul(PRIME64_1)
        .wrapping_add(PRIME64_4)
}

#[tactic(auto, unfolding(crate::specs::Xxh64::joined, crate::specs::Xxh64::converged))]
fn converged(v: [u64; 4]) -> u64
    ensures { result ≡ converged v }
{
    let joined = rotl(v[0], 1)
        .wrapping_add(rotl(v[1], 7))
        .wrapping_add(rotl(v[2], 12))
        .wrapping_add(rotl(v[3], 18));
    merged(merged(merged(merged(joined, v[0]), v[1]), v[2]), v[3])
}

// The hash of these lanes with the length added, or of fewer than 32 bytes.
#[tactic(auto, unfolding(crate::specs::Xxh64::begun))]
fn begun(v: [u64; 4], is_short: bool, length: u64) -> u64
    ensures { result ≡ begun v is_short length }
{
    let hash = if is_short { PRIME64_5 } else { converged(v) };
    hash.wrapping_add(length)
}

#[inline(always)]
#[tactic(auto, unfolding(crate::specs::Xxh64::word_taken))]
fn word_taken(hash: u64, word: u64) -> u64
    ensures { result ≡ word_taken hash word }
{
    rotl(hash ^ round(0, word), 27)
        .wrapping_mul(PRIME64_1)
        .wrapping_add(PRIME64_4)
}

#[inline(always)]
#[tactic(auto, unfolding(crate::specs::Xxh64::half_taken))]
fn half_taken(hash: u64, half: u64) -> u64
    ensures { result ≡ half_taken hash half }
{
    rotl(hash ^ half.wrapping_mul(PRIME64_1), 23)
        .wrapping_mul(PRIME64_2)
        .wrapping_add(PRIME64_3)
}

#[inline(always)]
#[tactic(auto, unfolding(crate::specs::Xxh64::byte_taken))]
fn byte_taken(hash: u64, byte: u64) -> u64
    ensures { result ≡ byte_taken hash byte }
{
    rotl(hash ^ byte.wrapping_mul(PRIME64_5), 11).wrapping_mul(PRIME64_1)
}

// The hash after the whole words of 8 bytes of what is behind the stripes.
#[tactic(auto, using(crate::proofs::StepLemmas::words_more), unfolding(crate::specs::Xxh64::after_whole_words, crate::specs::Xxh64::after_words))]
fn after_whole_words(begun: u64, rest: &[u8]) -> u64
    ensures { result ≡ after_whole_words begun rest.now }
{
    let mut hash = begun;
    for i in 0..rest.len() / 8 {
        hash = word_taken(hash, word64(rest, 8 * i));
    }
    hash
}

// The hash after one word of 4 bytes more, if four bytes are left.
#[tactic(auto, unfolding(crate::specs::Xxh64::after_half))]
fn after_half(begun: u64, rest: &[u8]) -> u64
    ensures { result ≡ after_half begun rest.now }
{
    let hash = after_whole_words(begun, rest);
    if rest.len() % 8 < 4 {
        return hash;
    }
    half_taken(hash, u64::from(word32(rest, 8 * (rest.len() / 8))))
}

// The hash after the bytes that are left.
#[tactic(auto, using(crate::proofs::StepLemmas::bytes_more), unfolding(crate::specs::Xxh64::after_rest, crate::specs::Xxh64::after_bytes))]
fn after_rest(begun: u64, rest: &[u8]) -> u64
    ensures { result ≡ after_rest begun rest.now }
{
    let mut hash = after_half(begun, rest);
    let at = 4 * (rest.len() / 4);
    for i in 0..rest.len() % 4 {
        hash = byte_taken(hash, u64::from(rest[at + i]));
    }
    hash
}

/// The last mixing of the bits.
#[tactic(auto, unfolding(crate::specs::Xxh64::avalanche))]
pub(crate) fn avalanche(hash: u64) -> u64
    ensures { result ≡ avalanche hash }
{
    let hash = xor_shifted(hash, 33).wrapping_mul(PRIME64_2);
    let hash = xor_shifted(hash, 29).wrapping_mul(PRIME64_3);
    xor_shifted(hash, 32)
}

/// The XXH64 hash of these bytes with seed 0 (the xxHash specification).
#[tactic(auto, unfolding(crate::specs::Xxh64::xxh64))]
pub fn xxh64(bytes: &[u8]) -> u64
    ensures { result ≡ xxh64 bytes.now }
{
    let hash = begun(lanes(bytes), bytes.len() < 32, bytes.len() as u64);
    avalanche(after_rest(hash, &bytes[32 * (bytes.len() / 32)..]))
}
