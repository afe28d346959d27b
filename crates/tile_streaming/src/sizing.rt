// Whether the tiles of marks are too many or too long for an archive.
ghost use Rattle.std.specs.Prelude.{◌≡◌};
ghost use Rattle.tile_streaming.specs.Sizing.{overflow_of};

use crate::Mark;

/// Whether marks are of a tile of 2^32 bytes, 2^32 tiles, or 2^60 bytes in all.
pub(crate) fn mark_overflows(marks: &[Mark]) -> bool
    ensures { result ≡ overflow_of marks.now }
{
    if marks.len() as u64 >= 1 << 32 {
        return true;
    }
    let mut total: u64 = 0;
    for mark in marks {
        if mark.is_long {
            return true;
        }
        total += mark.length as u64;
        if total >= 1 << 60 {
            return true;
        }
    }
    false
}
