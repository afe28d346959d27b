// The bytes of thirty-two digits.
ghost use Rattle.std.specs.Prelude.{◌≡◌, ◌++◌, map, true};
ghost use Rattle.hex_pairs.specs.ValueLanes.{AreDigits, lane_value, paired};

use std::simd::prelude::*;

/// Whether sixteen bytes are digits, of either case.
#[inline(always)]
pub(crate) fn are_digits(lanes: u8x16) -> bool
    ensures { result ≡ true → AreDigits lanes }
{
    let number = lanes - u8x16::splat(48);
    let letter = (lanes | u8x16::splat(32)) - u8x16::splat(97);
    let stops = number.simd_ge(u8x16::splat(10)) & letter.simd_ge(u8x16::splat(6));
    stops.to_bitmask() == 0
}

// The values of sixteen digits: the lower four bits, and nine more for a letter.
#[inline(always)]
fn values_of(lanes: u8x16) -> u8x16
    ensures { result ≡ map lane_value lanes }
{
    let letter = lanes >> u8x16::splat(6);
    (lanes & u8x16::splat(15)) + (letter + (letter << u8x16::splat(3)))
}

/// The bytes of thirty-two digits.
#[inline(always)]
pub(crate) fn bytes_of_digits(front: u8x16, back: u8x16) -> u8x16
    ensures { AreDigits (front ++ back) → result ≡ paired (front ++ back) }
{
    let first = values_of(front);
    let second = values_of(back);
    let high = first.shuffle(
        second,
        [0, 2, 4, 6, 8, 10, 12, 14, 16, 18, 20, 22, 24, 26, 28, 30],
    );
    let low = first.shuffle(
        second,
        [1, 3, 5, 7, 9, 11, 13, 15, 17, 19, 21, 23, 25, 27, 29, 31],
    );
    (high << u8x16::splat(4)) + low
}
