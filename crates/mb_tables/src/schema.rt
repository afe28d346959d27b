// The descriptions that the project itself gives its tables.
ghost use Rattle.std.specs.Prelude.{◌≡◌, [], ◌∷◌, ◌++◌, true, IfOk, OnOk};
ghost use Rattle.mb_tables.specs.Schema.{column_of, columns_of, coordinates, table_of, view_of, layout_tables, set_tables};
ghost use Rattle.mb_tables.specs.Table.{key_columns};

use crate::{
    ColumnDesc, ColumnList, IndexDesc, IndexList, MbtType, NormalizedSchema, TableDesc, TableKind,
    TableName,
};
use base_values::{OutOfMemory, TextList, TextVal};
use std::alloc::Global;

fn text_of(alloc: Global, text: &str) -> Result<TextVal, OutOfMemory>
    ensures { IfOk result (λ own. own ≡ text.now) }
{
    Ok(TextVal::new(String::from_str(alloc, text)?))
}

// Adds a column to a list.
fn add_column(
    alloc: Global,
    columns: &mut Vec<ColumnDesc>,
    name: &str,
    type_name: &str,
) -> Result<(), OutOfMemory>
    ensures { OnOk result
        (columns.new.items ≡ columns.old.items ++ column_of name.now type_name.now ∷ []) }
{
    let name = text_of(alloc, name)?;
    let type_name = text_of(alloc, type_name)?;
    columns.push(ColumnDesc { name, type_name })?;
    Ok(())
}

// The three columns of a place.
fn coordinates(alloc: Global) -> Result<Vec<ColumnDesc>, OutOfMemory>
    ensures { IfOk result (λ columns. columns.items ≡ coordinates) }
{
    let mut columns = Vec::new(alloc);
    add_column(alloc, &mut columns, "zoom_level", "INTEGER")?;
    add_column(alloc, &mut columns, "tile_column", "INTEGER")?;
    add_column(alloc, &mut columns, "tile_row", "INTEGER")?;
    Ok(columns)
}

// The columns of a table whose key isn't a place.
fn listed_columns(
    alloc: Global,
    id: &str,
    id_type: &str,
    value: &str,
    value_type: &str,
) -> Result<Vec<ColumnDesc>, OutOfMemory>
    ensures { IfOk result (λ columns. columns.items
        ≡ column_of id.now id_type.now ∷ column_of value.now value_type.now ∷ []) }
{
    let mut columns = Vec::new(alloc);
    add_column(alloc, &mut columns, id, id_type)?;
    add_column(alloc, &mut columns, value, value_type)?;
    Ok(columns)
}

// The columns of a place, and one more.
fn place_columns(alloc: Global, name: &str, type_name: &str) -> Result<Vec<ColumnDesc>, OutOfMemory>
    ensures { IfOk result
        (λ columns. columns.items ≡ coordinates ++ column_of name.now type_name.now ∷ []) }
{
    let mut columns = coordinates(alloc)?;
    add_column(alloc, &mut columns, name, type_name)?;
    Ok(columns)
}

// The columns of `tiles_with_hash`.
fn hash_columns(alloc: Global) -> Result<Vec<ColumnDesc>, OutOfMemory>
    ensures { IfOk result (λ columns. columns.items ≡ columns_of TableName.TilesWithHash) }
{
    let mut columns = place_columns(alloc, "tile_data", "BLOB")?;
    add_column(alloc, &mut columns, "tile_hash", "TEXT")?;
    Ok(columns)
}

// The columns of `tile_cache`.
fn cache_columns(alloc: Global) -> Result<Vec<ColumnDesc>, OutOfMemory>
    ensures { IfOk result (λ columns. columns.items ≡ columns_of TableName.TileCache) }
{
    let mut columns = place_columns(alloc, "fetched", "INTEGER")?;
    add_column(alloc, &mut columns, "expires", "INTEGER")?;
    add_column(alloc, &mut columns, "etag", "TEXT")?;
    add_column(alloc, &mut columns, "tile_data", "BLOB")?;
    Ok(columns)
}

// The columns of a table.
fn columns_of(alloc: Global, table: TableName) -> Result<ColumnList, OutOfMemory>
    ensures { IfOk result (λ columns. columns ≡ columns_of table) }
{
    Ok(ColumnList::new(match table {
        TableName::Tiles => place_columns(alloc, "tile_data", "BLOB")?,
        TableName::TilesWithHash => hash_columns(alloc)?,
        TableName::Map => place_columns(alloc, "tile_id", "TEXT")?,
        TableName::Images => listed_columns(alloc, "tile_id", "TEXT", "tile_data", "BLOB")?,
        TableName::TilesShallow => place_columns(alloc, "tile_data_id", "INTEGER")?,
        TableName::TilesData => {
            listed_columns(alloc, "tile_data_id", "INTEGER", "tile_data", "BLOB")?
        }
        TableName::TileCache => cache_columns(alloc)?,
        TableName::Metadata => listed_columns(alloc, "name", "TEXT", "value", "TEXT")?,
    }))
}

// The names of the columns of a table's key.
fn key_columns(alloc: Global, table: TableName) -> Result<TextList, OutOfMemory>
    ensures { IfOk result (λ columns. columns ≡ key_columns table) }
{
    let mut columns = Vec::new(alloc);
    match table {
        TableName::Images => columns.push(text_of(alloc, "tile_id")?)?,
        TableName::TilesData => columns.push(text_of(alloc, "tile_data_id")?)?,
        TableName::Metadata => columns.push(text_of(alloc, "name")?)?,
        _ => {
            columns.push(text_of(alloc, "zoom_level")?)?;
            columns.push(text_of(alloc, "tile_column")?)?;
            columns.push(text_of(alloc, "tile_row")?)?;
        }
    }
    Ok(TextList::new(columns))
}

/// The description of a table, with a unique index on its key.
pub fn table_of(alloc: Global, table: TableName) -> Result<TableDesc, OutOfMemory>
    ensures { IfOk result (λ description. description ≡ table_of table) }
{
    let name = text_of(alloc, table.name())?;
    let columns = columns_of(alloc, table)?;
    let mut indexes = Vec::new(alloc);
    indexes.push(IndexDesc {
        unique: true,
        columns: key_columns(alloc, table)?,
    })?;
    Ok(TableDesc {
        name,
        kind: TableKind::Table,
        columns,
        indexes: IndexList::new(indexes),
    })
}

/// The description of a view with the columns of a table.
pub fn view_of(alloc: Global, table: TableName) -> Result<TableDesc, OutOfMemory>
    ensures { IfOk result (λ description. description ≡ view_of table) }
{
    Ok(TableDesc {
        name: text_of(alloc, table.name())?,
        kind: TableKind::View,
        columns: columns_of(alloc, table)?,
        indexes: IndexList::new(Vec::new(alloc)),
    })
}

/// The tables of a layout, and its views.
pub fn layout_tables(alloc: Global, layout: MbtType) -> Result<Vec<TableDesc>, OutOfMemory>
    ensures { IfOk result (λ tables. tables.items ≡ layout_tables layout) }
{
    let mut tables = Vec::new(alloc);
    match layout {
        MbtType::Flat => tables.push(table_of(alloc, TableName::Tiles)?)?,
        MbtType::FlatWithHash => {
            tables.push(table_of(alloc, TableName::TilesWithHash)?)?;
            tables.push(view_of(alloc, TableName::Tiles)?)?;
        }
        MbtType::Normalized { hash_view, schema } => {
            return normalized_tables(alloc, hash_view, schema);
        }
        MbtType::Cache => {
            tables.push(table_of(alloc, TableName::TileCache)?)?;
            tables.push(view_of(alloc, TableName::Tiles)?)?;
        }
    }
    Ok(tables)
}

// The tables of a normalised layout, and its views.
fn normalized_tables(
    alloc: Global,
    hash_view: bool,
    schema: NormalizedSchema,
) -> Result<Vec<TableDesc>, OutOfMemory>
    ensures { IfOk result
        (λ tables. tables.items ≡ layout_tables (MbtType.Normalized hash_view schema)) }
{
    let mut tables = Vec::new(alloc);
    match schema {
        NormalizedSchema::Hash => {
            tables.push(table_of(alloc, TableName::Map)?)?;
            tables.push(table_of(alloc, TableName::Images)?)?;
            tables.push(view_of(alloc, TableName::Tiles)?)?;
            if hash_view {
                tables.push(view_of(alloc, TableName::TilesWithHash)?)?;
            }
        }
        NormalizedSchema::DedupId => {
            tables.push(table_of(alloc, TableName::TilesShallow)?)?;
            tables.push(table_of(alloc, TableName::TilesData)?)?;
            tables.push(view_of(alloc, TableName::Tiles)?)?;
        }
    }
    Ok(tables)
}

/// The tables and views of a tile set of the layout, its metadata first.
pub fn set_tables(alloc: Global, layout: MbtType) -> Result<Vec<TableDesc>, OutOfMemory>
    ensures { IfOk result (λ tables. tables.items ≡ set_tables layout) }
{
    let mut tables = layout_tables(alloc, layout)?;
    tables.insert(0, table_of(alloc, TableName::Metadata)?)?;
    Ok(tables)
}
