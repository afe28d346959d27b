// Whether a description has the columns of a table, by their names and types.
ghost use Rattle.std.specs.Prelude.{◌≡◌, drop};
ghost use Rattle.mb_tables.specs.Common.{list_any};
ghost use Rattle.mb_tables.specs.Columns.{begins_int, fits, has_int, is_column, patch_columns, type_fits};
ghost use Rattle.mb_tables.specs.Schema.{column_of, columns_of, coordinates};

use crate::{ColumnDesc, TableDesc, TableName};

// Whether a text begins with INT, in any case.
fn begins_int(text: &[u8]) -> bool
    ensures { result ≡ begins_int text.now }
{
    match text {
        [a, b, c, ..] => {
            a.to_ascii_uppercase() == b'I'
                && b.to_ascii_uppercase() == b'N'
                && c.to_ascii_uppercase() == b'T'
        }
        _ => false,
    }
}

// Whether a text has INT in it, in any case.
fn has_int(text: &[u8]) -> bool
    ensures { result ≡ has_int text.now }
{
    let mut rest = text;
    while let [_, after @ ..] = rest {
        if begins_int(rest) {
            return true;
        }
        rest = after;
    }
    false
}

// Whether a type text fits a wanted type.
fn type_fits(wanted: &str, text: &str) -> bool
    ensures { result ≡ type_fits wanted.now text.now }
{
    if wanted == "INTEGER" {
        has_int(text.as_bytes())
    } else {
        text == wanted
    }
}

// Whether a column has this name, and a type that fits this one.
fn is_column(column: &ColumnDesc, name: &str, type_name: &str) -> bool
    ensures { result ≡ is_column (column_of name.now type_name.now) column.now }
{
    column.name.as_str() == name && type_fits(type_name, column.type_name.as_str())
}

// Whether a column is one of the three of a place.
fn is_coordinate(column: &ColumnDesc) -> bool
    ensures { result ≡ list_any (λ wanted. is_column wanted column.now) coordinates }
{
    is_column(column, "zoom_level", "INTEGER")
        || is_column(column, "tile_column", "INTEGER")
        || is_column(column, "tile_row", "INTEGER")
}

// Whether a column is one of a table's.
fn is_column_of(table: TableName, column: &ColumnDesc) -> bool
    ensures { result ≡ list_any (λ wanted. is_column wanted column.now) (columns_of table) }
{
    match table {
        TableName::Tiles => is_coordinate(column) || is_column(column, "tile_data", "BLOB"),
        TableName::TilesWithHash => {
            is_coordinate(column)
                || is_column(column, "tile_data", "BLOB")
                || is_column(column, "tile_hash", "TEXT")
        }
        TableName::Map => is_coordinate(column) || is_column(column, "tile_id", "TEXT"),
        TableName::Images => {
            is_column(column, "tile_id", "TEXT") || is_column(column, "tile_data", "BLOB")
        }
        TableName::TilesShallow => {
            is_coordinate(column) || is_column(column, "tile_data_id", "INTEGER")
        }
        TableName::TilesData => {
            is_column(column, "tile_data_id", "INTEGER") || is_column(column, "tile_data", "BLOB")
        }
        TableName::TileCache => is_coordinate(column) || is_cache_column(column),
        TableName::Metadata => {
            is_column(column, "name", "TEXT") || is_column(column, "value", "TEXT")
        }
    }
}

// Whether a column is one of those of `tile_cache` after the place.
fn is_cache_column(column: &ColumnDesc) -> bool
    ensures { result ≡ list_any (λ wanted. is_column wanted column.now)
        (drop 3 (columns_of TableName.TileCache)) }
{
    is_column(column, "fetched", "INTEGER")
        || is_column(column, "expires", "INTEGER")
        || is_column(column, "etag", "TEXT")
        || is_column(column, "tile_data", "BLOB")
}

// Whether a column is one of those of a table of patches.
fn is_patch_column(column: &ColumnDesc) -> bool
    ensures { result ≡ list_any (λ wanted. is_column wanted column.now) patch_columns }
{
    is_coordinate(column)
        || is_column(column, "patch_data", "BLOB")
        || is_column(column, "tile_xxh3_64_hash", "INTEGER")
}

/// Whether a description has as many columns of the table as the table has.
pub(crate) fn fits(table: TableName, description: &TableDesc) -> bool
    ensures { result ≡ fits (columns_of table) description.now }
{
    let columns = description.columns.as_slice();
    columns
        .iter()
        .filter(|column| is_column_of(table, column))
        .count()
        == table.width()
}

/// Whether a description has as many columns of a table of patches as that has.
pub(crate) fn fits_patches(description: &TableDesc) -> bool
    ensures { result ≡ fits patch_columns description.now }
{
    let columns = description.columns.as_slice();
    columns
        .iter()
        .filter(|column| is_patch_column(column))
        .count()
        == 5
}
