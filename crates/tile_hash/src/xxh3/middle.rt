// XXH3 of 17 to 240 bytes.
ghost use Rattle.std.specs.Prelude.{◌≡◌, ◌+◌, ◌*◌, ◌≤◌, ◌<◌, length};
ghost use Rattle.tile_hash.specs.Xxh3.{pair, pairs, of_middle, first_mixes, more_mixes, of_upper};

use super::mixing::{finished, mix};
use crate::words::PRIME64_1;

// 16 bytes from the front and 16 from the end.
#[inline(always)]
#[tactic(auto, unfolding(crate::specs::Xxh3::pair))]
fn pair(bytes: &[u8], i: usize) -> u64
    requires few { i < 4 }
    requires within { 32 * i + 1 ≤ length bytes.now }
    requires many { 16 * i + 16 ≤ length bytes.now }
    ensures { result ≡ pair bytes.now i }
{
    let front = mix(bytes, 16 * i, 32 * i);
    front.wrapping_add(mix(bytes, bytes.len() - 16 - 16 * i, 32 * i + 16))
}

/// The hash of 17 to 128 bytes.
#[tactic(auto, using(crate::proofs::StepLemmas::pairs_more), unfolding(crate::specs::Xxh3::of_middle, crate::specs::Xxh3::pairs))]
pub(crate) fn of_middle(bytes: &[u8]) -> u64
    requires more { 17 ≤ length bytes.now }
    requires few { length bytes.now ≤ 128 }
    ensures { result ≡ of_middle bytes.now }
{
    let mut sum = (bytes.len() as u64).wrapping_mul(PRIME64_1);
    for i in 0..(bytes.len() + 31) / 32 {
        sum = sum.wrapping_add(pair(bytes, i));
    }
    finished(sum)
}

// The first eight times 16 bytes.
#[tactic(auto, using(crate::proofs::StepLemmas::first_more), unfolding(crate::specs::Xxh3::first_mixes))]
fn first_mixes(bytes: &[u8]) -> u64
    requires { 128 ≤ length bytes.now }
    ensures { result ≡ first_mixes bytes.now 8 }
{
    let mut sum = (bytes.len() as u64).wrapping_mul(PRIME64_1);
    for i in 0..8 {
        sum = sum.wrapping_add(mix(bytes, 16 * i, 16 * i));
    }
    sum
}

// The times 16 bytes behind them.
#[tactic(auto, using(crate::proofs::StepLemmas::mixes_more), unfolding(crate::specs::Xxh3::more_mixes))]
fn more_mixes(bytes: &[u8], count: usize) -> u64
    requires few { count ≤ 7 }
    requires within { 16 * (count + 8) ≤ length bytes.now }
    ensures { result ≡ more_mixes bytes.now count }
{
    let mut sum = finished(first_mixes(bytes));
    for i in 0..count {
        sum = sum.wrapping_add(mix(bytes, 16 * (i + 8), 16 * i + 3));
    }
    sum
}

/// The hash of 129 to 240 bytes.
#[tactic(auto, unfolding(crate::specs::Xxh3::of_upper))]
pub(crate) fn of_upper(bytes: &[u8]) -> u64
    requires more { 129 ≤ length bytes.now }
    requires few { length bytes.now ≤ 240 }
    ensures { result ≡ of_upper bytes.now }
{
    let sum = more_mixes(bytes, bytes.len() / 16 - 8);
    finished(sum.wrapping_add(mix(bytes, bytes.len() - 16, 119)))
}
