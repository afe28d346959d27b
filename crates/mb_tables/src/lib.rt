//! Cells, rows, keys and descriptions of tables, and the layouts of tile sets.
#![tactic(auto)]

mod cell;
mod cell_kinds;
mod cell_order;
mod column;
mod columns;
mod described;
mod description;
mod detection;
mod error;
mod index;
mod key;
mod kind;
pub mod laws;
mod patch_type;
mod row;
mod schema;
mod table;

pub use cell::Cell;
pub use cell_kinds::{cell_at, have_name_kinds, have_tile_kinds, is_id, is_text};
pub use column::{ColumnDesc, ColumnList};
pub use described::is_keyed;
pub use description::{TableDesc, TableKind};
pub use detection::{
    detect_type, get_patch_type, has_tiles_with_hash, is_cache_tables_type,
    is_dedup_id_normalized_tables_type, is_flat_tables_type, is_flat_with_hash_tables_type,
    is_normalized_tables_type, missing_tile_index,
};
pub use error::{MbtError, MbtResult};
pub use index::{IndexDesc, IndexList};
pub use key::{RowKey, key_of};
pub use kind::{
    AGG_TILES_HASH, AGG_TILES_HASH_AFTER_APPLY, AGG_TILES_HASH_BEFORE_APPLY, HASH_ALGORITHM,
    MbtType, MbtTypeCli, NormalizedSchema,
};
pub use patch_type::{PatchType, PatchTypeCli, get_bsdiff_tbl_name};
pub use row::Row;
pub use schema::{layout_tables, set_tables, table_of, view_of};
pub use table::TableName;
