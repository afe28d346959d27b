// Keys of rows as numbers, so that a list of rows by their keys takes 16 bytes a row.
ghost use Rattle.std.specs.Prelude.{◌≡◌, true, length};
ghost use Rattle.mb_tables.specs.Key.{has_key};
ghost use Rattle.mb_tables.specs.Table.{width};
ghost use Rattle.mb_file.specs.Numbers.{number_of_key, number_of_row, place_number};

use mb_tables::{Cell, Row, RowKey};
use sqlite_disk::digest_of;

// A row by its key.
#[derive(Clone, Copy, Debug, PartialEq, Eq, PartialOrd, Ord)]
pub(crate) struct Numbered {
    // The number of its key.
    pub(crate) number: u64,
    // Where it is read again: its rowid, or the place of its cell.
    pub(crate) place: i64,
}

// The number of a place of zoom 0 to 30, its column and row below two to the zoom; None of another one. No
// two places have one number.
pub(crate) fn place_number(zoom: i64, column: i64, row: i64) -> Option<u64>
    ensures { result ≡ place_number zoom column row }
{
    let zoom = u32::try_from(zoom).ok()?;
    let column = u64::try_from(column).ok()?;
    let row = u64::try_from(row).ok()?;
    if zoom > 30 {
        return None;
    }
    let side = 1u64 << zoom;
    if column >= side || row >= side {
        return None;
    }
    side.checked_add(column)?
        .checked_mul(1_073_741_824)?
        .checked_add(row)
}

// The number of a row's key, None where a cell of it is null. Two texts may have one number.
pub(crate) fn number_of_row(secret: u64, row: &Row) -> Option<u64>
    ensures { result ≡ number_of_row secret row.now }
{
    match row.cells() {
        [Cell::Int(zoom), Cell::Int(column), Cell::Int(line), _, ..] => {
            place_number(*zoom, *column, *line)
        }
        [Cell::Int(id), _] => Some(id.cast_unsigned()),
        [Cell::Text(id), _] => Some(digest_of(secret, id.as_str().as_bytes())),
        _ => None,
    }
}

// The number of a key, None where no row has it.
pub(crate) fn number_of_key(secret: u64, key: &RowKey) -> Option<u64>
    ensures number { result ≡ number_of_key secret key.now }
    ensures same { (table : _) (row : _) → length row ≡ width table
        → has_key table key.now row ≡ true → number_of_row secret row ≡ result }
{
    match key {
        RowKey::Tile { zoom, column, row } => {
            place_number(i64::from(*zoom), i64::from(*column), i64::from(*row))
        }
        RowKey::IntId(id) => Some(id.cast_unsigned()),
        RowKey::TextId(id) => Some(digest_of(secret, id.as_str().as_bytes())),
    }
}
