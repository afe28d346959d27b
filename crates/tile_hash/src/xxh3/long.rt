// XXH3 of more than 240 bytes: stripes of 64 bytes, 16 stripes to a block.
ghost use Rattle.std.specs.Prelude.{◌≡◌, ◌+◌, ◌*◌, ◌<◌, ◌≤◌, length};
ghost use Rattle.tile_hash.specs.Xxh3.{halves, lane, striped, stripes, scrambled_lane, scrambled, blocks, block_count, all_stripes, all_lanes, lanes_folded, lanes_merged, of_long};
ghost use Rattle.tile_hash.specs.Xxh3Stream.{stripe_taken, taken};

use super::mixing::{finished, folded};
use super::secret::secret64;
use crate::words::{PRIME64_1, PRIME64_2, PRIME64_3, PRIME64_4, PRIME64_5, word64, xor_shifted};

const PRIME32_1: u64 = 0x9E37_79B1;

const PRIME32_2: u64 = 0x85EB_CA77;

const PRIME32_3: u64 = 0xC2B2_AE3D;

pub(crate) const FIRST_LANES: [u64; 8] = [
    PRIME32_3, PRIME64_1, PRIME64_2, PRIME64_3, PRIME64_4, PRIME32_2, PRIME64_5, PRIME32_1,
];

// The product of the two halves of a number.
#[inline(always)]
#[tactic(auto, unfolding(crate::specs::Xxh3::halves))]
fn halves(key: u64) -> u64
    ensures { result ≡ halves key }
{
    (key % 0x1_0000_0000) * (key >> 32)
}

// Lane `i` after a stripe, with the word of lane `j` and the product of its own.
#[inline(always)]
#[tactic(auto, unfolding(crate::specs::Xxh3::lane))]
fn lane(v: [u64; 8], bytes: &[u8], at: usize, place: usize, i: usize, j: usize) -> u64
    requires own { i < 8 }
    requires other { j < 8 }
    requires bytes { at + 64 ≤ length bytes.now }
    requires secret { place + 64 ≤ 192 }
    ensures { result ≡ lane v bytes.now at place i j }
{
    let key = word64(bytes, at + 8 * i) ^ secret64(place + 8 * i);
    v[i].wrapping_add(word64(bytes, at + 8 * j))
        .wrapping_add(halves(key))
}

/// The lanes after the stripe at this byte.
#[inline(always)]
#[tactic(auto, unfolding(crate::specs::Xxh3::striped))]
pub(crate) fn striped(v: [u64; 8], bytes: &[u8], at: usize, place: usize) -> [u64; 8]
    requires bytes { at + 64 ≤ length bytes.now }
    requires secret { place + 64 ≤ 192 }
    ensures { result ≡ striped v bytes.now at place }
{
    [
        lane(v, bytes, at, place, 0, 1),
        lane(v, bytes, at, place, 1, 0),
        lane(v, bytes, at, place, 2, 3),
        lane(v, bytes, at, place, 3, 2),
        lane(v, bytes, at, place, 4, 5),
        lane(v, bytes, at, place, 5, 4),
        lane(v, bytes, at, place, 6, 7),
        lane(v, bytes, at, place, 7, 6),
    ]
}

// The lanes after so many stripes of the block at this byte.
#[inline(always)]
#[tactic(auto, using(crate::proofs::StepLemmas::stripes_more), unfolding(crate::specs::Xxh3::stripes))]
fn stripes(start: [u64; 8], bytes: &[u8], at: usize, count: usize) -> [u64; 8]
    requires few { count ≤ 16 }
    requires within { at + 64 * count ≤ length bytes.now }
    ensures { result ≡ stripes start bytes.now at count }
{
    let mut v = start;
    for i in 0..count {
        let next = striped(v, bytes, at + 64 * i, 8 * i);
        v = next;
    }
    v
}

#[inline(always)]
#[tactic(auto, unfolding(crate::specs::Xxh3::scrambled_lane))]
fn scrambled_lane(v: [u64; 8], i: usize) -> u64
    requires { i < 8 }
    ensures { result ≡ scrambled_lane v i }
{
    (xor_shifted(v[i], 47) ^ secret64(128 + 8 * i)).wrapping_mul(PRIME32_1)
}

// The lanes at the end of a block.
#[inline(always)]
#[tactic(auto, unfolding(crate::specs::Xxh3::scrambled))]
fn scrambled(v: [u64; 8]) -> [u64; 8]
    ensures { result ≡ scrambled v }
{
    [
        scrambled_lane(v, 0),
        scrambled_lane(v, 1),
        scrambled_lane(v, 2),
        scrambled_lane(v, 3),
        scrambled_lane(v, 4),
        scrambled_lane(v, 5),
        scrambled_lane(v, 6),
        scrambled_lane(v, 7),
    ]
}

// The lanes after so many blocks.
#[tactic(auto, using(crate::proofs::StepLemmas::blocks_more), unfolding(crate::specs::Xxh3::blocks))]
fn blocks(bytes: &[u8], count: usize) -> [u64; 8]
    requires { 1024 * count ≤ length bytes.now }
    ensures { result ≡ blocks bytes.now count }
{
    let mut v = FIRST_LANES;
    for i in 0..count {
        v = scrambled(stripes(v, bytes, 1024 * i, 16));
    }
    v
}

// The lanes after the stripe at this byte, the stripe of this number in its block.
#[inline(always)]
#[tactic(auto, unfolding(crate::specs::Xxh3Stream::stripe_taken))]
fn stripe_taken(v: [u64; 8], bytes: &[u8], at: usize, number: usize) -> [u64; 8]
    requires bytes { at + 64 ≤ length bytes.now }
    requires number { number < 16 }
    ensures { result ≡ stripe_taken v bytes.now at number }
{
    let next = striped(v, bytes, at, 8 * number);
    if number == 15 { scrambled(next) } else { next }
}

/// The lanes after so many stripes from this byte on, the first of which has this number, counted over blocks.
#[tactic(auto, using(crate::proofs::StepLemmas::taken_more), unfolding(crate::specs::Xxh3Stream::taken))]
pub(crate) fn taken(
    start: [u64; 8],
    bytes: &[u8],
    at: usize,
    number: usize,
    count: usize,
) -> [u64; 8]
    requires within { at + 64 * count ≤ length bytes.now }
    requires number { number < 32 }
    ensures { result ≡ taken start bytes.now at number count }
{
    let mut v = start;
    for i in 0..count {
        let next = stripe_taken(v, bytes, at + 64 * i, (number + i) % 16);
        v = next;
    }
    v
}

// The lanes after all stripes that end before the last byte.
#[tactic(auto, unfolding(crate::specs::Xxh3::all_stripes))]
fn all_stripes(bytes: &[u8]) -> [u64; 8]
    requires { 1 ≤ length bytes.now }
    ensures { result ≡ all_stripes bytes.now }
{
    let count = (bytes.len() - 1) / 1024;
    let left = (bytes.len() - 1) % 1024 / 64;
    stripes(blocks(bytes, count), bytes, 1024 * count, left)
}

// The lanes after the last 64 bytes.
#[tactic(auto, unfolding(crate::specs::Xxh3::all_lanes))]
fn all_lanes(bytes: &[u8]) -> [u64; 8]
    requires { 64 ≤ length bytes.now }
    ensures { result ≡ all_lanes bytes.now }
{
    striped(all_stripes(bytes), bytes, bytes.len() - 64, 121)
}

#[tactic(auto, unfolding(crate::specs::Xxh3::lanes_folded))]
fn lanes_folded(v: [u64; 8], i: usize) -> u64
    requires { i < 4 }
    ensures { result ≡ lanes_folded v i }
{
    folded(
        v[2 * i] ^ secret64(11 + 16 * i),
        v[2 * i + 1] ^ secret64(19 + 16 * i),
    )
}

#[tactic(auto, unfolding(crate::specs::Xxh3::lanes_merged))]
pub(crate) fn lanes_merged(v: [u64; 8], hash: u64) -> u64
    ensures { result ≡ lanes_merged v hash }
{
    finished(
        hash.wrapping_add(lanes_folded(v, 0))
            .wrapping_add(lanes_folded(v, 1))
            .wrapping_add(lanes_folded(v, 2))
            .wrapping_add(lanes_folded(v, 3)),
    )
}

/// The hash of more than 240 bytes.
#[tactic(auto, unfolding(crate::specs::Xxh3::of_long))]
pub(crate) fn of_long(bytes: &[u8]) -> u64
    requires { 241 ≤ length bytes.now }
    ensures { result ≡ of_long bytes.now }
{
    let hash = (bytes.len() as u64).wrapping_mul(PRIME64_1);
    lanes_merged(all_lanes(bytes), hash)
}
