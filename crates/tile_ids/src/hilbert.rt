// The number of a tile along the Hilbert curve of its zoom, two bits of the column and the row at
// a time, and the way back.
//
// An odd zoom begins one level higher: there the curve first runs through a quarter that is the whole zoom with
// columns and rows exchanged.
ghost use Rattle.std.specs.Prelude.{◌≡◌, ◌≤◌, ◌<◌, ◌+◌, ◌*◌, ◌^◌};
ghost use Rattle.tile_ids.specs.Hilbert.{hilbert, pyramid};

use crate::MAX_TILE_ID;
use crate::orientation::{number_entry, place_entry};

/// How many tiles the zooms below this zoom of 0 to 31 have together.
pub(crate) fn pyramid_size(zoom: u8) -> u64
    requires { zoom ≤ 31 }
    ensures { result ≡ pyramid zoom }
{
    ((1u64 << (2 * zoom)) - 1) / 3
}

/// The number of the tile in this column and row of a zoom of 0 to 31, along the curve of the zoom.
pub(crate) fn hilbert_number(zoom: u8, x: u32, y: u32) -> u64
    requires zoom { zoom ≤ 31 }
    requires column { x < 2 ^ zoom }
    requires row { y < 2 ^ zoom }
    ensures value { result ≡ hilbert zoom (x, y) }
    ensures below { result < 4 ^ zoom }
{
    let mut number: u64 = 0;
    let mut entry = 16 * (zoom % 2);
    let mut left = zoom + zoom % 2;
    while left > 0 {
        left -= 2;
        entry = number_entry(entry, (x >> left) % 4, (y >> left) % 4);
        number = 16 * number + u64::from(entry % 16);
    }
    number
}

/// The column and row of the tile that has this number along the curve of a zoom of 0 to 31.
pub(crate) fn hilbert_place(zoom: u8, number: u64) -> (u32, u32)
    requires zoom { zoom ≤ 31 }
    requires number { number < 4 ^ zoom }
    ensures number { hilbert zoom result ≡ number }
    ensures column { result.0 < 2 ^ zoom }
    ensures row { result.1 < 2 ^ zoom }
{
    let mut column: u32 = 0;
    let mut row: u32 = 0;
    let mut entry = 16 * (zoom % 2);
    let mut left = zoom + zoom % 2;
    while left > 0 {
        left -= 2;
        entry = place_entry(entry, (number >> (2 * left)) % 16);
        column = 4 * column + u32::from(entry / 4 % 4);
        row = 4 * row + u32::from(entry % 4);
    }
    (column, row)
}

/// The zoom of the tile that has this id.
pub(crate) fn zoom_of(id: u64) -> u8
    requires { id ≤ MAX_TILE_ID }
    ensures zoom { result ≤ 31 }
    ensures from { pyramid result ≤ id }
    ensures below { id < pyramid result + 4 ^ result }
{
    ((3 * id + 1).ilog2() / 2) as u8
}
