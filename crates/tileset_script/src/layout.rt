// The layouts that a script names.
ghost use Rattle.std.specs.Prelude.{◌≡◌, [], ◌∷◌, ◌++◌, IfOk, OnOk};
ghost use Rattle.tileset_script.specs.Common.{column_of, is_table, patch_columns, set_tables, table_of};
ghost use Rattle.tileset_script.specs.Layout.{bsdiff_table, layout_named, set_named, tables_of, unindexed};

use base_values::{OutOfMemory, TextVal};
use line_words::is_word;
use mb_store::{
    ColumnDesc, ColumnList, IndexList, MbtType, NormalizedSchema, PatchType, TableDesc, TableKind,
    TableName, get_bsdiff_tbl_name,
};
use mb_tables::{set_tables, table_of};
use std::alloc::Global;

/// What a store of a script describes.
#[derive(Clone, Copy, Debug, PartialEq, Eq)]
pub enum Layout {
    /// The tables of a tile set.
    Set(MbtType),
    /// Those of a flat set, the table of tiles without its index.
    FlatNoIndex,
    /// Those of a flat set, and a table of differences of tiles.
    FlatBsdiff,
    /// No table.
    Nothing,
}

// The layout of a normalised set.
fn normalized(hash_view: bool, schema: NormalizedSchema) -> MbtType
    ensures { result ≡ MbtType.Normalized hash_view schema }
{
    MbtType::Normalized { hash_view, schema }
}

// The layout of a tile set that a word names.
fn set_of(word: &[u8]) -> Option<MbtType>
    ensures { result ≡ set_named word.now }
{
    if is_word(word, "flat") {
        return Some(MbtType::Flat);
    }
    if is_word(word, "flat-with-hash") {
        return Some(MbtType::FlatWithHash);
    }
    if is_word(word, "normalized") {
        return Some(normalized(false, NormalizedSchema::Hash));
    }
    if is_word(word, "normalized-with-view") {
        return Some(normalized(true, NormalizedSchema::Hash));
    }
    if is_word(word, "dedup-id") {
        return Some(normalized(false, NormalizedSchema::DedupId));
    }
    if is_word(word, "cache") {
        return Some(MbtType::Cache);
    }
    None
}

/// The layout that a word names.
pub(crate) fn layout_of(word: &[u8]) -> Option<Layout>
    ensures { result ≡ layout_named word.now }
{
    if is_word(word, "flat-no-index") {
        return Some(Layout::FlatNoIndex);
    }
    if is_word(word, "flat-bsdiff") {
        return Some(Layout::FlatBsdiff);
    }
    if is_word(word, "none") {
        return Some(Layout::Nothing);
    }
    set_of(word).map(Layout::Set)
}

fn text_of(alloc: Global, text: &str) -> Result<TextVal, OutOfMemory>
    ensures { IfOk result (λ own. own ≡ text.now) }
{
    Ok(TextVal::new(String::from_str(alloc, text)?))
}

// Adds a column to a list.
fn add_column(
    alloc: Global,
    columns: &mut Vec<ColumnDesc>,
    name: &str,
    type_name: &str,
) -> Result<(), OutOfMemory>
    ensures { OnOk result (columns.new.items ≡ columns.old.items ++ column_of name.now
        type_name.now ∷ []) }
{
    let name = text_of(alloc, name)?;
    let type_name = text_of(alloc, type_name)?;
    columns.push(ColumnDesc { name, type_name })?;
    Ok(())
}

// The columns of a table of differences.
fn difference_columns(alloc: Global) -> Result<ColumnList, OutOfMemory>
    ensures { IfOk result (λ columns. columns ≡ patch_columns) }
{
    let mut columns = Vec::new(alloc);
    add_column(alloc, &mut columns, "zoom_level", "INTEGER")?;
    add_column(alloc, &mut columns, "tile_column", "INTEGER")?;
    add_column(alloc, &mut columns, "tile_row", "INTEGER")?;
    add_column(alloc, &mut columns, "patch_data", "BLOB")?;
    add_column(alloc, &mut columns, "tile_xxh3_64_hash", "INTEGER")?;
    Ok(ColumnList::new(columns))
}

// The table of differences.
fn bsdiff_table(alloc: Global) -> Result<TableDesc, OutOfMemory>
    ensures { IfOk result (λ table. table ≡ bsdiff_table) }
{
    Ok(TableDesc {
        name: text_of(alloc, get_bsdiff_tbl_name(PatchType::BinDiffRaw))?,
        kind: TableKind::Table,
        columns: difference_columns(alloc)?,
        indexes: IndexList::new(Vec::new(alloc)),
    })
}

// The tables of a flat set, the table of tiles without its index.
fn unindexed_tables(alloc: Global) -> Result<Vec<TableDesc>, OutOfMemory>
    ensures { IfOk result (λ tables. tables.items ≡ table_of TableName.Metadata ∷ unindexed
        (table_of TableName.Tiles) ∷ []) }
{
    let mut tiles = table_of(alloc, TableName::Tiles)?;
    tiles.indexes = IndexList::new(Vec::new(alloc));
    let mut tables = Vec::new(alloc);
    tables.push(table_of(alloc, TableName::Metadata)?)?;
    tables.push(tiles)?;
    Ok(tables)
}

/// The tables and views of a layout.
pub(crate) fn tables_of(alloc: Global, layout: Layout) -> Result<Vec<TableDesc>, OutOfMemory>
    ensures { IfOk result (λ tables. tables.items ≡ tables_of layout) }
{
    match layout {
        Layout::Set(kind) => set_tables(alloc, kind),
        Layout::FlatNoIndex => unindexed_tables(alloc),
        Layout::FlatBsdiff => {
            let mut tables = set_tables(alloc, MbtType::Flat)?;
            tables.push(bsdiff_table(alloc)?)?;
            Ok(tables)
        }
        Layout::Nothing => Ok(Vec::new(alloc)),
    }
}

// Whether the table is one of a set of the layout, and no view.
fn is_set_table(kind: MbtType, table: TableName) -> bool
    ensures { result ≡ is_table (set_tables kind) table }
{
    match table {
        TableName::Metadata => true,
        TableName::Tiles => matches!(kind, MbtType::Flat),
        TableName::TilesWithHash => matches!(kind, MbtType::FlatWithHash),
        TableName::Map | TableName::Images => matches!(
            kind,
            MbtType::Normalized {
                schema: NormalizedSchema::Hash,
                ..
            }
        ),
        TableName::TilesShallow | TableName::TilesData => matches!(
            kind,
            MbtType::Normalized {
                schema: NormalizedSchema::DedupId,
                ..
            }
        ),
        TableName::TileCache => matches!(kind, MbtType::Cache),
    }
}

/// Whether a store of the layout has the table, and not as a view.
pub(crate) fn has_table(layout: Layout, table: TableName) -> bool
    ensures { result ≡ is_table (tables_of layout) table }
{
    match layout {
        Layout::Set(kind) => is_set_table(kind, table),
        Layout::FlatNoIndex | Layout::FlatBsdiff => is_set_table(MbtType::Flat, table),
        Layout::Nothing => false,
    }
}
