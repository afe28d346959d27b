// Sixteen bytes at a place of a slice.
ghost use Rattle.std.specs.Prelude.{◌≡◌, ◌+◌, ◌≤◌, ◌++◌, length, take};

use std::simd::prelude::*;

/// How many bytes are taken together.
pub(crate) const LANES: usize = 16;

/// Writes sixteen bytes at a place.
#[inline(always)]
pub(crate) fn store(out: &mut [u8], at: usize, lanes: u8x16)
    requires { at + 16 ≤ length out.old }
    ensures written { take (at + 16) out.new ≡ take at out.old ++ lanes }
    ensures len { length out.new ≡ length out.old }
{
    lanes.copy_to_slice(&mut out[at..]);
}
