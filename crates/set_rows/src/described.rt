// What is said of descriptions.
use mb_tables::{
    TableDesc, detect_type, get_patch_type, has_tiles_with_hash, is_cache_tables_type,
    is_dedup_id_normalized_tables_type, is_flat_tables_type, is_flat_with_hash_tables_type,
    is_normalized_tables_type, missing_tile_index,
};
use rows_shared::said;

// The layout, the table without an index, and the kind of patch.
pub fn say_layout(out: &mut String, tables: &[TableDesc]) -> Option<()> {
    said(out, detect_type(tables))?;
    said(out, missing_tile_index(tables))?;
    said(out, get_patch_type(tables))
}

// Which tables are described.
pub fn say_tables(out: &mut String, tables: &[TableDesc]) -> Option<()> {
    said(out, is_flat_tables_type(tables))?;
    said(out, is_flat_with_hash_tables_type(tables))?;
    said(out, has_tiles_with_hash(tables))?;
    said(out, is_normalized_tables_type(tables))?;
    said(out, is_dedup_id_normalized_tables_type(tables))?;
    said(out, is_cache_tables_type(tables))
}
