// What descriptions say of a table.
ghost use Rattle.std.specs.Prelude.{◌≡◌};
ghost use Rattle.mb_tables.specs.Common.{bytes_eq, list_any};
ghost use Rattle.mb_tables.specs.Described.{has_each, is_key_index, is_keyed};
ghost use Rattle.mb_tables.specs.Table.{key_columns};

use crate::{IndexDesc, TableDesc, TableName};
use base_values::TextVal;

// Whether texts have this one among them.
pub(crate) fn has_text(texts: &[TextVal], text: &str) -> bool
    ensures { result ≡ list_any (bytes_eq text.now) texts.now }
{
    texts.iter().any(|other| text == other.as_str())
}

// Whether a text is the name of a column of the table's key.
fn is_key_column(table: TableName, name: &str) -> bool
    ensures { result ≡ list_any (bytes_eq name.now) (key_columns table) }
{
    match table {
        TableName::Images => name == "tile_id",
        TableName::TilesData => name == "tile_data_id",
        TableName::Metadata => name == "name",
        _ => name == "zoom_level" || name == "tile_column" || name == "tile_row",
    }
}

// Whether names have each column of the table's key among them.
fn has_key_columns(table: TableName, names: &[TextVal]) -> bool
    ensures { result ≡ has_each names.now (key_columns table) }
{
    match table {
        TableName::Images => has_text(names, "tile_id"),
        TableName::TilesData => has_text(names, "tile_data_id"),
        TableName::Metadata => has_text(names, "name"),
        _ => has_coordinates(names),
    }
}

// Whether names have the three columns of a place among them.
pub(crate) fn has_coordinates(names: &[TextVal]) -> bool
    ensures { result ≡ has_each names.now (key_columns TableName.Tiles) }
{
    has_text(names, "zoom_level") && has_text(names, "tile_column") && has_text(names, "tile_row")
}

// Whether each name is that of a column of the table's key.
fn are_key_columns(table: TableName, names: &[TextVal]) -> bool
    ensures { result ≡ has_each (key_columns table) names.now }
{
    names.iter().all(|name| is_key_column(table, name.as_str()))
}

// Whether an index keeps equal keys of the table out.
fn is_key_index(table: TableName, index: &IndexDesc) -> bool
    ensures { result ≡ is_key_index table index.now }
{
    let columns = index.columns.as_slice();
    index.unique && are_key_columns(table, columns) && has_key_columns(table, columns)
}

/// Whether the table is described with a unique index of exactly the columns of its key.
pub fn is_keyed(tables: &[TableDesc], table: TableName) -> bool
    ensures { result ≡ is_keyed tables.now table }
{
    let name = table.name();
    tables.iter().any(|d| d.name.as_str() == name && has_key_index(table, d.indexes.as_slice()))
}

// Whether one of these indexes keeps equal keys of the table out.
fn has_key_index(table: TableName, indexes: &[IndexDesc]) -> bool
    ensures { result ≡ list_any (is_key_index table) indexes.now }
{
    indexes.iter().any(|index| is_key_index(table, index))
}
