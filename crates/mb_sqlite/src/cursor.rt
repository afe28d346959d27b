// Where a table was read to, so that pages in order take time in their rows alone.
ghost use Rattle.std.specs.Prelude.{◌≡◌};
ghost use Rattle.mb_sqlite.specs.Cursor.{cursor_past, cursor_start};

use mb_tables::TableName;

// So many rows are read, of which the last one has this `rowid`.
#[derive(Clone, Copy, Debug, PartialEq, Eq)]
pub(crate) struct Cursor {
    pub(crate) table: TableName,
    pub(crate) number: u64,
    pub(crate) rowid: i64,
}

// The `rowid` behind which the rows of a table from a number on are read, if there is one, and how
// many are passed over first.
pub(crate) fn start_of(cursor: Option<Cursor>, table: TableName, from: u64) -> (Option<i64>, u64)
    ensures { result ≡ cursor_start cursor table from }
{
    match cursor {
        Some(cursor) if cursor.table == table && cursor.number <= from => {
            (Some(cursor.rowid), from - cursor.number)
        }
        _ => (None, from),
    }
}

// The cursor behind so many rows from a number on, of which the last one has this `rowid`. Where there is none,
// the earlier cursor stays.
pub(crate) fn moved(
    cursor: Option<Cursor>,
    table: TableName,
    from: u64,
    count: u64,
    last: Option<i64>,
) -> Option<Cursor>
    ensures { result ≡ cursor_past cursor table from count last }
{
    let Some(rowid) = last else {
        return cursor;
    };
    if count == 0 {
        return cursor;
    }
    match from.checked_add(count) {
        Some(number) => Some(Cursor {
            table,
            number,
            rowid,
        }),
        None => cursor,
    }
}
