// The layout of a tile set, from the descriptions of its tables.
ghost use Rattle.std.specs.Prelude.{◌≡◌, ◌↔◌, ◌&&◌, None, IfOk, IfErr, IfSome, IsErrOf};
ghost use Rattle.mb_tables.specs.Common.{list_any, option_copied};
ghost use Rattle.mb_tables.specs.Detection.{detected, has_columns, has_patches, has_table, has_tile_index, layout_of, missing_index, patch_type_of};
ghost use Rattle.mb_tables.specs.Described.{has_each};
ghost use Rattle.mb_tables.specs.Kind.{tile_table};
ghost use Rattle.mb_tables.specs.Table.{key_columns};

use crate::columns::{fits, fits_patches};
use crate::described::{has_coordinates, is_keyed};
use crate::patch_type::get_bsdiff_tbl_name;
use crate::{
    IndexDesc, MbtError, MbtResult, MbtType, NormalizedSchema, PatchType, TableDesc, TableKind,
    TableName,
};

// Whether a table or view is described with the columns of the table.
fn has_columns(tables: &[TableDesc], table: TableName) -> bool
    ensures { result ≡ has_columns tables.now table }
{
    let name = table.name();
    tables
        .iter()
        .any(|d| d.name.as_str() == name && fits(table, d))
}

// Whether it is described so as a table.
fn has_table(tables: &[TableDesc], table: TableName) -> bool
    ensures { result ≡ has_table tables.now table }
{
    let name = table.name();
    tables.iter().any(|d| d.name.as_str() == name && d.kind == TableKind::Table && fits(table, d))
}

/// Whether the table `tiles` of a flat set is described.
pub fn is_flat_tables_type(tables: &[TableDesc]) -> bool
    ensures { result ≡ has_table tables.now TableName.Tiles }
{
    has_table(tables, TableName::Tiles)
}

/// Whether the table `tiles_with_hash` is described.
pub fn is_flat_with_hash_tables_type(tables: &[TableDesc]) -> bool
    ensures { result ≡ has_table tables.now TableName.TilesWithHash }
{
    has_table(tables, TableName::TilesWithHash)
}

/// Whether `tiles_with_hash` is described, as a table or a view.
pub fn has_tiles_with_hash(tables: &[TableDesc]) -> bool
    ensures { result ≡ has_columns tables.now TableName.TilesWithHash }
{
    has_columns(tables, TableName::TilesWithHash)
}

/// Whether the tables `map` and `images` are described.
pub fn is_normalized_tables_type(tables: &[TableDesc]) -> bool
    ensures { result ≡ has_table tables.now TableName.Map && has_table tables.now TableName.Images }
{
    has_table(tables, TableName::Map) && has_table(tables, TableName::Images)
}

/// Whether the tables `tiles_shallow` and `tiles_data` are described.
pub fn is_dedup_id_normalized_tables_type(tables: &[TableDesc]) -> bool
    ensures { result ≡ has_table tables.now TableName.TilesShallow
        && has_table tables.now TableName.TilesData }
{
    has_table(tables, TableName::TilesShallow) && has_table(tables, TableName::TilesData)
}

/// Whether the table `tile_cache` is described.
pub fn is_cache_tables_type(tables: &[TableDesc]) -> bool
    ensures { result ≡ has_table tables.now TableName.TileCache }
{
    has_table(tables, TableName::TileCache)
}

// The first layout whose tables are described.
fn layout_of(tables: &[TableDesc]) -> Option<MbtType>
    ensures { result ≡ layout_of tables.now }
{
    if is_normalized_tables_type(tables) {
        return Some(MbtType::Normalized {
            hash_view: has_tiles_with_hash(tables),
            schema: NormalizedSchema::Hash,
        });
    }
    if is_dedup_id_normalized_tables_type(tables) {
        return Some(MbtType::Normalized {
            hash_view: false,
            schema: NormalizedSchema::DedupId,
        });
    }
    if is_flat_with_hash_tables_type(tables) {
        Some(MbtType::FlatWithHash)
    } else if is_flat_tables_type(tables) {
        Some(MbtType::Flat)
    } else if is_cache_tables_type(tables) {
        Some(MbtType::Cache)
    } else {
        None
    }
}

/// The layout of a tile set with these tables: the first whose tables are described, with their columns by name and
/// type. Refused as `InvalidDataFormat` where there is none, and as `NoUniquenessConstraint` where no unique index of
/// exactly the columns of a place is described for its tiles.
pub fn detect_type(tables: &[TableDesc]) -> MbtResult<MbtType>
    ensures { result ≡ detected tables.now }
{
    let layout = layout_of(tables).ok_or(MbtError::InvalidDataFormat)?;
    if is_keyed(tables, layout.tile_table()) {
        Ok(layout)
    } else {
        Err(MbtError::NoUniquenessConstraint)
    }
}

// Whether an index has the columns of a place among its own.
fn is_tile_index(index: &IndexDesc) -> bool
    ensures { result ≡ has_each index.now.columns (key_columns TableName.Tiles) }
{
    has_coordinates(index.columns.as_slice())
}

// Whether one of these indexes does.
fn has_place_index(indexes: &[IndexDesc]) -> bool
    ensures { result ≡ list_any (λ i. has_each i.columns (key_columns TableName.Tiles))
        indexes.now }
{
    indexes.iter().any(|index| is_tile_index(index))
}

// Whether an index of the table, unique or not, does.
fn has_tile_index(tables: &[TableDesc], table: TableName) -> bool
    ensures { result ≡ has_tile_index tables.now table }
{
    let name = table.name();
    tables.iter().any(|d| d.name.as_str() == name && has_place_index(d.indexes.as_slice()))
}

/// The name of the table of a tile set's places, where no index of it, unique or not, has the columns of a place among
/// its own. Refused as `InvalidDataFormat` where the tables are of no layout.
pub fn missing_tile_index(tables: &[TableDesc]) -> MbtResult<Option<&'static str>>
    ensures answer { IfOk result (λ name. IfSome (layout_of tables.now)
        (λ layout. option_copied name ≡ missing_index tables.now layout)) }
    ensures format { IsErrOf result MbtError.InvalidDataFormat ↔ (layout_of tables.now ≡ None) }
    ensures errors { IfErr result (λ e. e ≡ MbtError.InvalidDataFormat) }
{
    let layout = layout_of(tables).ok_or(MbtError::InvalidDataFormat)?;
    let table = layout.tile_table();
    if has_tile_index(tables, table) {
        Ok(None)
    } else {
        Ok(Some(table.name()))
    }
}

// Whether a table or view of patches of the kind is described.
fn has_patches(tables: &[TableDesc], patch_type: PatchType) -> bool
    ensures { result ≡ has_patches tables.now patch_type }
{
    let name = get_bsdiff_tbl_name(patch_type);
    tables
        .iter()
        .any(|d| d.name.as_str() == name && fits_patches(d))
}

/// The kind of a patch with these tables, None where there is no table or view of patches.
pub fn get_patch_type(tables: &[TableDesc]) -> Option<PatchType>
    ensures { result ≡ patch_type_of tables.now }
{
    if has_patches(tables, PatchType::BinDiffRaw) {
        Some(PatchType::BinDiffRaw)
    } else if has_patches(tables, PatchType::BinDiffGz) {
        Some(PatchType::BinDiffGz)
    } else {
        None
    }
}
