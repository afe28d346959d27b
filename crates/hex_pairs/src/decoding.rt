// Bytes from digits.
ghost use Rattle.std.specs.Prelude.{◌≡◌, ◌+◌, ◌*◌, ◌≤◌, ◌++◌, Ok, IfOk, MatchBool, None, drop, false, length, option_map, take, true};
ghost use Rattle.hex_pairs.specs.Common.{decode_pairs};
ghost use Rattle.hex_pairs.specs.Decoded.{bytes_of, decoded};
ghost use Rattle.hex_pairs.specs.ValueLanes.{AreDigits, paired};

use crate::block::{LANES, store};
use crate::tables::{high, low};
use crate::value_lanes::{are_digits, bytes_of_digits};
use base_values::OutOfMemory;
use std::alloc::Global;
use std::simd::prelude::*;

// Reads the thirty-two digits behind those of so many bytes, and says whether they all are. Where one
// isn't, nothing is written.
#[inline(always)]
fn read_block(digits: &[u8], at: usize, bytes: &mut [u8]) -> bool
    requires from { 2 * at + 32 ≤ length digits.now }
    requires to { at + 16 ≤ length bytes.old }
    ensures digits { result ≡ true → AreDigits (take 32 (drop (2 * at) digits.now)) }
    ensures read { result ≡ true → take (at + 16) bytes.new ≡ take at bytes.old ++ paired
        (take 32 (drop (2 * at) digits.now)) }
    ensures kept { result ≡ false → bytes.new ≡ bytes.old }
    ensures len { length bytes.new ≡ length bytes.old }
{
    let front = u8x16::from_slice(&digits[2 * at..]);
    let back = u8x16::from_slice(&digits[2 * at + LANES..]);
    if !are_digits(front) {
        return false;
    }
    if !are_digits(back) {
        return false;
    }
    store(bytes, at, bytes_of_digits(front, back));
    true
}

// Reads digits from the front, thirty-two at a time, as long as they all are. Says how many bytes are read.
fn read_blocks(digits: &[u8], bytes: &mut [u8]) -> usize
    requires { length digits.now ≡ 2 * length bytes.old }
    ensures digits { AreDigits (take (2 * result) digits.now) }
    ensures read { take result bytes.new ≡ paired (take (2 * result) digits.now) }
    ensures within { result ≤ length bytes.old }
    ensures len { length bytes.new ≡ length bytes.old }
{
    let mut at = 0;
    while bytes.len() - at >= LANES {
        if !read_block(digits, at, bytes) {
            return at;
        }
        at += LANES;
    }
    at
}

// Writes the bytes of pairs of digits, and says whether all are digits.
fn decode_into(digits: &[u8], bytes: &mut [u8]) -> bool
    requires { length digits.now ≡ 2 * length bytes.old }
    ensures { MatchBool result (decode_pairs 0 digits.now ≡ Ok bytes.new)
        (bytes_of (decode_pairs 0 digits.now) ≡ None) }
{
    let done = read_blocks(digits, bytes);
    for i in done..bytes.len() {
        let byte = high(digits[2 * i]) + low(digits[2 * i + 1]);
        if byte > 255 {
            return false;
        }
        bytes[i] = byte as u8;
    }
    true
}

/// The bytes that an even number of hexadecimal digits of either case spell, two digits a byte; None where their number
/// is odd or another byte is among them.
pub fn decode(alloc: Global, digits: &[u8]) -> Result<Option<Vec<u8>>, OutOfMemory>
    ensures { IfOk result (λ bytes. option_map (λ b. b.items) bytes ≡ decoded digits.now) }
{
    if digits.len() % 2 != 0 {
        return Ok(None);
    }
    let mut bytes = vec![in alloc; 0u8; digits.len() / 2]?;
    if decode_into(digits, bytes.as_mut_slice()) {
        Ok(Some(bytes))
    } else {
        Ok(None)
    }
}
