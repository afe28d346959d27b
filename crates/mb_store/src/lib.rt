//! Stores of tables: the trait, the changes of a commit, and a store in memory.
#![tactic(auto)]

mod bookmark;
mod by_table;
mod change;
mod changes;
mod committing;
mod creating;
mod describing;
mod editing;
mod gathered;
mod gathering;
mod key_cells;
pub mod laws;
mod mem_store;
mod mem_tables;
mod reading;
mod sizes;
mod spread;
mod store;
mod stored_row;
mod table_key;
mod table_rows;
mod taking;

pub use changes::Changes;
pub use creating::{
    create_cache_schema, create_cache_tables, create_flat_tables, create_flat_with_hash_tables,
    create_metadata_table, create_normalized_tables, create_tiles_with_hash_view,
    init_mbtiles_schema, is_empty_database,
};
pub use mb_tables::{
    AGG_TILES_HASH, AGG_TILES_HASH_AFTER_APPLY, AGG_TILES_HASH_BEFORE_APPLY, Cell, ColumnDesc,
    ColumnList, HASH_ALGORITHM, IndexDesc, IndexList, MbtError, MbtResult, MbtType, MbtTypeCli,
    NormalizedSchema, PatchType, PatchTypeCli, Row, RowKey, TableDesc, TableKind, TableName,
    detect_type, get_bsdiff_tbl_name, get_patch_type, has_tiles_with_hash, is_cache_tables_type,
    is_dedup_id_normalized_tables_type, is_flat_tables_type, is_flat_with_hash_tables_type,
    is_normalized_tables_type, missing_tile_index,
};
pub use mem_store::MemStore;
pub use sizes::size_with_cells;
pub use store::{StoreError, TileStore};
