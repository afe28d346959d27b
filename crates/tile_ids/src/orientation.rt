// The curve through the 16 squares of a square, four by four, by tables: two levels of the curve in one step.
//
// An entry less its last four bits is 16 times the orientation in which the curve runs through the sixteenth.
// The part of either table for that orientation begins there, so that nothing but one reading of a table
// stands between two steps.
ghost use Rattle.std.specs.Prelude.{◌/◌, ◌%◌, ◌<◌};
ghost use Rattle.tile_ids.specs.Orientation.{IsSixteenth};

// By orientation, column and row: the number of the sixteenth, and 16 times the orientation in it.
const NUMBERS: [u8; 64] = [
    // As the whole curve.
    0, 35, 20, 5, 17, 18, 55, 6, 62, 61, 24, 9, 15, 44, 59, 10,
    // Columns and rows exchanged.
    16, 1, 46, 31, 51, 2, 45, 60, 4, 39, 8, 43, 21, 22, 25, 26,
    // Both counted from the other edge.
    42, 27, 12, 47, 41, 56, 29, 30, 38, 23, 50, 49, 37, 52, 3, 32,
    // Exchanged, and counted from the other edge.
    58, 57, 54, 53, 11, 40, 7, 36, 28, 13, 34, 19, 63, 14, 33, 48,
];

// By orientation and number: the row of the sixteenth, 4 times its column, and 16 times the orientation in it.
const PLACES: [u8; 64] = [
    // As the whole curve.
    0, 20, 21, 33, 18, 3, 7, 54, 26, 11, 15, 62, 45, 57, 56, 12,
    // Columns and rows exchanged.
    16, 1, 5, 52, 8, 28, 29, 41, 10, 30, 31, 43, 55, 38, 34, 19,
    // Both counted from the other edge.
    47, 59, 58, 14, 61, 44, 40, 25, 53, 36, 32, 17, 2, 22, 23, 35,
    // Exchanged, and counted from the other edge.
    63, 46, 42, 27, 39, 51, 50, 6, 37, 49, 48, 4, 24, 9, 13, 60,
];

/// The entry for the sixteenth in this column and row, where the curve runs as the entry before says: 16 times the
/// orientation in the sixteenth, and its number.
pub(crate) fn number_entry(before: u8, column: u32, row: u32) -> u8
    requires before { before < 64 }
    requires column { column < 4 }
    requires row { row < 4 }
    ensures sixteenth { IsSixteenth (before / 16) column row (result % 16) (result / 16) }
    ensures within { result < 64 }
{
    NUMBERS[(before / 16 * 16) as usize + (4 * column + row) as usize]
}

/// The entry for the sixteenth of this number, where the curve runs as the entry before says: 16 times the orientation
/// in the sixteenth, 4 times its column, and its row.
pub(crate) fn place_entry(before: u8, number: u64) -> u8
    requires before { before < 64 }
    requires number { number < 16 }
    ensures sixteenth { IsSixteenth (before / 16) (result / 4 % 4) (result % 4) number
        (result / 16) }
    ensures within { result < 64 }
{
    PLACES[(before / 16 * 16) as usize + number as usize]
}
