// The digits of sixteen bytes.
ghost use Rattle.std.specs.Prelude.{◌≡◌, ◌++◌, length, map};
ghost use Rattle.hex_pairs.specs.Common.{encode_lower};
ghost use Rattle.hex_pairs.specs.DigitLanes.{high_digit, low_digit};

use std::simd::prelude::*;

// The sixteen digits, with lower case letters.
const DIGITS: [u8; 16] = [
    48, 49, 50, 51, 52, 53, 54, 55, 56, 57, 97, 98, 99, 100, 101, 102,
];

// The first digit of each byte.
#[inline(always)]
fn high_digits(bytes: u8x16) -> u8x16
    ensures { result ≡ map high_digit bytes }
{
    u8x16::from_array(DIGITS).swizzle_dyn(bytes >> u8x16::splat(4))
}

// The second digit of each byte.
#[inline(always)]
fn low_digits(bytes: u8x16) -> u8x16
    ensures { result ≡ map low_digit bytes }
{
    u8x16::from_array(DIGITS).swizzle_dyn(bytes & u8x16::splat(15))
}

/// The digits of sixteen bytes, in two halves.
#[inline(always)]
pub(crate) fn digits_of(bytes: u8x16) -> (u8x16, u8x16)
    ensures { result.0 ++ result.1 ≡ encode_lower bytes }
{
    let high = high_digits(bytes);
    let low = low_digits(bytes);
    (
        high.shuffle(
            low,
            [0, 16, 1, 17, 2, 18, 3, 19, 4, 20, 5, 21, 6, 22, 7, 23],
        ),
        high.shuffle(
            low,
            [8, 24, 9, 25, 10, 26, 11, 27, 12, 28, 13, 29, 14, 30, 15, 31],
        ),
    )
}
