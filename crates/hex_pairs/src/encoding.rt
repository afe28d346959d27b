// Digits from bytes.
ghost use Rattle.std.specs.Prelude.{◌≡◌, ◌+◌, ◌*◌, ◌≤◌, ◌++◌, drop, length, take};
ghost use Rattle.hex_pairs.specs.Common.{encode_lower};

use crate::block::{LANES, store};
use crate::digit_lanes::digits_of;
use std::simd::prelude::*;

// Writes the digits of the sixteen bytes from a place on.
#[inline(always)]
fn write_block(bytes: &[u8], at: usize, digits: &mut [u8])
    requires from { at + 16 ≤ length bytes.now }
    requires to { 2 * at + 32 ≤ length digits.old }
    ensures written { take (2 * at + 32) digits.new ≡ take (2 * at) digits.old ++ encode_lower
        (take 16 (drop at bytes.now)) }
    ensures len { length digits.new ≡ length digits.old }
{
    let (front, back) = digits_of(u8x16::from_slice(&bytes[at..]));
    store(digits, 2 * at, front);
    store(digits, 2 * at + LANES, back);
}

// Writes the digits of the bytes from a place on.
fn write_rest(bytes: &[u8], at: usize, digits: &mut [u8])
    requires within { at ≤ length bytes.now }
    requires room { length digits.old ≡ 2 * length bytes.now }
    ensures { digits.new ≡ take (2 * at) digits.old ++ encode_lower (drop at bytes.now) }
{
    let _ = hex::encode_to_slice(&bytes[at..], &mut digits[2 * at..]);
}

/// Writes the digits of bytes, two for each, with lower case letters.
pub fn encode_into(bytes: &[u8], digits: &mut [u8])
    requires { length digits.old ≡ 2 * length bytes.now }
    ensures { digits.new ≡ encode_lower bytes.now }
{
    let mut at = 0;
    while bytes.len() - at >= LANES {
        write_block(bytes, at, digits);
        at += LANES;
    }
    write_rest(bytes, at, digits);
}
