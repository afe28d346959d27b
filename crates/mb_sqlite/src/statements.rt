// The statements that are run, one text for each table.
ghost use Rattle.std.specs.Prelude.{◌≡◌};
ghost use Rattle.mb_sqlite.specs.Common.{option_copied, Tiles, TilesWithHash};
ghost use Rattle.mb_sqlite.specs.Creation.{creation_text, there_text, view_text};
ghost use Rattle.mb_sqlite.specs.Statements.{addition_text, count_text, first_page_text, found_text, page_text, removal_text};

use mb_tables::{MbtType, NormalizedSchema, TableName};

// How many tables and views have a name, in any ASCII case.
#[tactic(auto, unfolding(crate::specs::Creation::there_text))]
pub(crate) fn named() -> &'static str
    ensures { result.now ≡ there_text }
{
    "SELECT count(*) FROM sqlite_master WHERE name = ?1 COLLATE NOCASE AND type IN ('table', 'view')"
}

// Makes a table, with a unique index on its key.
#[tactic(auto, unfolding(crate::specs::Creation::creation_text))]
pub(crate) fn creation_of(table: TableName) -> &'static str
    ensures { result.now ≡ creation_text table }
{
    match table {
        TableName::Tiles =>
            "CREATE TABLE tiles (zoom_level INTEGER, tile_column INTEGER, tile_row INTEGER, tile_data BLOB, UNIQUE (zoom_level, tile_column, tile_row))",
        TableName::TilesWithHash =>
            "CREATE TABLE tiles_with_hash (zoom_level INTEGER, tile_column INTEGER, tile_row INTEGER, tile_data BLOB, tile_hash TEXT, UNIQUE (zoom_level, tile_column, tile_row))",
        TableName::Map =>
            "CREATE TABLE map (zoom_level INTEGER, tile_column INTEGER, tile_row INTEGER, tile_id TEXT, UNIQUE (zoom_level, tile_column, tile_row))",
        TableName::Images => "CREATE TABLE images (tile_id TEXT, tile_data BLOB, UNIQUE (tile_id))",
        TableName::TilesShallow =>
            "CREATE TABLE tiles_shallow (zoom_level INTEGER, tile_column INTEGER, tile_row INTEGER, tile_data_id INTEGER, UNIQUE (zoom_level, tile_column, tile_row))",
        TableName::TilesData =>
            "CREATE TABLE tiles_data (tile_data_id INTEGER, tile_data BLOB, UNIQUE (tile_data_id))",
        TableName::TileCache =>
            "CREATE TABLE tile_cache (zoom_level INTEGER, tile_column INTEGER, tile_row INTEGER, fetched INTEGER, expires INTEGER, etag TEXT, tile_data BLOB, UNIQUE (zoom_level, tile_column, tile_row))",
        TableName::Metadata => "CREATE TABLE metadata (name TEXT, value TEXT, UNIQUE (name))",
    }
}

// Makes the view of the tiles of a layout other than Flat.
#[tactic(auto, unfolding(crate::specs::Creation::view_text))]
pub(crate) fn tiles_view(layout: MbtType) -> Option<&'static str>
    ensures { option_copied result ≡ view_text layout Tiles }
{
    match layout {
        MbtType::Flat => None,
        MbtType::FlatWithHash => Some(
            "CREATE VIEW tiles AS SELECT zoom_level, tile_column, tile_row, tile_data FROM tiles_with_hash",
        ),
        MbtType::Normalized {
            schema: NormalizedSchema::Hash,
            ..
        } => Some(
            "CREATE VIEW tiles AS SELECT map.zoom_level AS zoom_level, map.tile_column AS tile_column, map.tile_row AS tile_row, images.tile_data AS tile_data FROM map JOIN images ON images.tile_id = map.tile_id",
        ),
        MbtType::Normalized {
            schema: NormalizedSchema::DedupId,
            ..
        } => Some(
            "CREATE VIEW tiles AS SELECT tiles_shallow.zoom_level AS zoom_level, tiles_shallow.tile_column AS tile_column, tiles_shallow.tile_row AS tile_row, tiles_data.tile_data AS tile_data FROM tiles_shallow JOIN tiles_data ON tiles_data.tile_data_id = tiles_shallow.tile_data_id",
        ),
        MbtType::Cache => Some(
            "CREATE VIEW tiles AS SELECT zoom_level, tile_column, tile_row, tile_data FROM tile_cache",
        ),
    }
}

// Makes the view of the tiles with their digests, where the layout has one.
#[tactic(auto, unfolding(crate::specs::Creation::view_text))]
pub(crate) fn hash_view(layout: MbtType) -> Option<&'static str>
    ensures { option_copied result ≡ view_text layout TilesWithHash }
{
    match layout {
        MbtType::Normalized {
            hash_view: true,
            schema: NormalizedSchema::Hash,
        } => Some(
            "CREATE VIEW tiles_with_hash AS SELECT map.zoom_level AS zoom_level, map.tile_column AS tile_column, map.tile_row AS tile_row, images.tile_data AS tile_data, images.tile_id AS tile_hash FROM map JOIN images ON images.tile_id = map.tile_id",
        ),
        _ => None,
    }
}

// The number of rows.
pub(crate) fn count_of(table: TableName) -> &'static str
    ensures { result.now ≡ count_text table }
{
    match table {
        TableName::Tiles => "SELECT count(*) FROM tiles",
        TableName::TilesWithHash => "SELECT count(*) FROM tiles_with_hash",
        TableName::Map => "SELECT count(*) FROM map",
        TableName::Images => "SELECT count(*) FROM images",
        TableName::TilesShallow => "SELECT count(*) FROM tiles_shallow",
        TableName::TilesData => "SELECT count(*) FROM tiles_data",
        TableName::TileCache => "SELECT count(*) FROM tile_cache",
        TableName::Metadata => "SELECT count(*) FROM metadata",
    }
}

// Rows in the order in which they are stored, each with its number in the table: at most the first value,
// after as many as the second.
pub(crate) fn first_page_of(table: TableName) -> &'static str
    ensures { result.now ≡ first_page_text table }
{
    match table {
        TableName::Tiles =>
            "SELECT zoom_level, tile_column, tile_row, tile_data, rowid FROM tiles ORDER BY rowid LIMIT ?1 OFFSET ?2",
        TableName::TilesWithHash =>
            "SELECT zoom_level, tile_column, tile_row, tile_data, tile_hash, rowid FROM tiles_with_hash ORDER BY rowid LIMIT ?1 OFFSET ?2",
        TableName::Map =>
            "SELECT zoom_level, tile_column, tile_row, tile_id, rowid FROM map ORDER BY rowid LIMIT ?1 OFFSET ?2",
        TableName::Images =>
            "SELECT tile_id, tile_data, rowid FROM images ORDER BY rowid LIMIT ?1 OFFSET ?2",
        TableName::TilesShallow =>
            "SELECT zoom_level, tile_column, tile_row, tile_data_id, rowid FROM tiles_shallow ORDER BY rowid LIMIT ?1 OFFSET ?2",
        TableName::TilesData =>
            "SELECT tile_data_id, tile_data, rowid FROM tiles_data ORDER BY rowid LIMIT ?1 OFFSET ?2",
        TableName::TileCache =>
            "SELECT zoom_level, tile_column, tile_row, fetched, expires, etag, tile_data, rowid FROM tile_cache ORDER BY rowid LIMIT ?1 OFFSET ?2",
        TableName::Metadata =>
            "SELECT name, value, rowid FROM metadata ORDER BY rowid LIMIT ?1 OFFSET ?2",
    }
}

// Rows in the order in which they are stored, each with its number in the table: those with a number above the third
// value, at most the first, after as many as the second.
pub(crate) fn page_of(table: TableName) -> &'static str
    ensures { result.now ≡ page_text table }
{
    match table {
        TableName::Tiles =>
            "SELECT zoom_level, tile_column, tile_row, tile_data, rowid FROM tiles WHERE rowid > ?3 ORDER BY rowid LIMIT ?1 OFFSET ?2",
        TableName::TilesWithHash =>
            "SELECT zoom_level, tile_column, tile_row, tile_data, tile_hash, rowid FROM tiles_with_hash WHERE rowid > ?3 ORDER BY rowid LIMIT ?1 OFFSET ?2",
        TableName::Map =>
            "SELECT zoom_level, tile_column, tile_row, tile_id, rowid FROM map WHERE rowid > ?3 ORDER BY rowid LIMIT ?1 OFFSET ?2",
        TableName::Images =>
            "SELECT tile_id, tile_data, rowid FROM images WHERE rowid > ?3 ORDER BY rowid LIMIT ?1 OFFSET ?2",
        TableName::TilesShallow =>
            "SELECT zoom_level, tile_column, tile_row, tile_data_id, rowid FROM tiles_shallow WHERE rowid > ?3 ORDER BY rowid LIMIT ?1 OFFSET ?2",
        TableName::TilesData =>
            "SELECT tile_data_id, tile_data, rowid FROM tiles_data WHERE rowid > ?3 ORDER BY rowid LIMIT ?1 OFFSET ?2",
        TableName::TileCache =>
            "SELECT zoom_level, tile_column, tile_row, fetched, expires, etag, tile_data, rowid FROM tile_cache WHERE rowid > ?3 ORDER BY rowid LIMIT ?1 OFFSET ?2",
        TableName::Metadata =>
            "SELECT name, value, rowid FROM metadata WHERE rowid > ?3 ORDER BY rowid LIMIT ?1 OFFSET ?2",
    }
}

// The first row of a key.
pub(crate) fn found_in(table: TableName) -> &'static str
    ensures { result.now ≡ found_text table }
{
    match table {
        TableName::Tiles =>
            "SELECT zoom_level, tile_column, tile_row, tile_data FROM tiles WHERE zoom_level = ?1 COLLATE BINARY AND tile_column = ?2 COLLATE BINARY AND tile_row = ?3 COLLATE BINARY ORDER BY rowid LIMIT 1",
        TableName::TilesWithHash =>
            "SELECT zoom_level, tile_column, tile_row, tile_data, tile_hash FROM tiles_with_hash WHERE zoom_level = ?1 COLLATE BINARY AND tile_column = ?2 COLLATE BINARY AND tile_row = ?3 COLLATE BINARY ORDER BY rowid LIMIT 1",
        TableName::Map =>
            "SELECT zoom_level, tile_column, tile_row, tile_id FROM map WHERE zoom_level = ?1 COLLATE BINARY AND tile_column = ?2 COLLATE BINARY AND tile_row = ?3 COLLATE BINARY ORDER BY rowid LIMIT 1",
        TableName::Images =>
            "SELECT tile_id, tile_data FROM images WHERE tile_id = ?1 COLLATE BINARY ORDER BY rowid LIMIT 1",
        TableName::TilesShallow =>
            "SELECT zoom_level, tile_column, tile_row, tile_data_id FROM tiles_shallow WHERE zoom_level = ?1 COLLATE BINARY AND tile_column = ?2 COLLATE BINARY AND tile_row = ?3 COLLATE BINARY ORDER BY rowid LIMIT 1",
        TableName::TilesData =>
            "SELECT tile_data_id, tile_data FROM tiles_data WHERE tile_data_id = ?1 COLLATE BINARY ORDER BY rowid LIMIT 1",
        TableName::TileCache =>
            "SELECT zoom_level, tile_column, tile_row, fetched, expires, etag, tile_data FROM tile_cache WHERE zoom_level = ?1 COLLATE BINARY AND tile_column = ?2 COLLATE BINARY AND tile_row = ?3 COLLATE BINARY ORDER BY rowid LIMIT 1",
        TableName::Metadata =>
            "SELECT name, value FROM metadata WHERE name = ?1 COLLATE BINARY ORDER BY rowid LIMIT 1",
    }
}

// Removes the rows of a key.
#[tactic(auto, unfolding(crate::specs::Statements::removal_text))]
pub(crate) fn removal_from(table: TableName) -> &'static str
    ensures { result.now ≡ removal_text table }
{
    match table {
        TableName::Tiles =>
            "DELETE FROM tiles WHERE zoom_level = ?1 COLLATE BINARY AND tile_column = ?2 COLLATE BINARY AND tile_row = ?3 COLLATE BINARY",
        TableName::TilesWithHash =>
            "DELETE FROM tiles_with_hash WHERE zoom_level = ?1 COLLATE BINARY AND tile_column = ?2 COLLATE BINARY AND tile_row = ?3 COLLATE BINARY",
        TableName::Map =>
            "DELETE FROM map WHERE zoom_level = ?1 COLLATE BINARY AND tile_column = ?2 COLLATE BINARY AND tile_row = ?3 COLLATE BINARY",
        TableName::Images => "DELETE FROM images WHERE tile_id = ?1 COLLATE BINARY",
        TableName::TilesShallow =>
            "DELETE FROM tiles_shallow WHERE zoom_level = ?1 COLLATE BINARY AND tile_column = ?2 COLLATE BINARY AND tile_row = ?3 COLLATE BINARY",
        TableName::TilesData => "DELETE FROM tiles_data WHERE tile_data_id = ?1 COLLATE BINARY",
        TableName::TileCache =>
            "DELETE FROM tile_cache WHERE zoom_level = ?1 COLLATE BINARY AND tile_column = ?2 COLLATE BINARY AND tile_row = ?3 COLLATE BINARY",
        TableName::Metadata => "DELETE FROM metadata WHERE name = ?1 COLLATE BINARY",
    }
}

// Adds a row.
#[tactic(auto, unfolding(crate::specs::Statements::addition_text))]
pub(crate) fn addition_to(table: TableName) -> &'static str
    ensures { result.now ≡ addition_text table }
{
    match table {
        TableName::Tiles =>
            "INSERT INTO tiles (zoom_level, tile_column, tile_row, tile_data) VALUES (?1, ?2, ?3, ?4)",
        TableName::TilesWithHash =>
            "INSERT INTO tiles_with_hash (zoom_level, tile_column, tile_row, tile_data, tile_hash) VALUES (?1, ?2, ?3, ?4, ?5)",
        TableName::Map =>
            "INSERT INTO map (zoom_level, tile_column, tile_row, tile_id) VALUES (?1, ?2, ?3, ?4)",
        TableName::Images => "INSERT INTO images (tile_id, tile_data) VALUES (?1, ?2)",
        TableName::TilesShallow =>
            "INSERT INTO tiles_shallow (zoom_level, tile_column, tile_row, tile_data_id) VALUES (?1, ?2, ?3, ?4)",
        TableName::TilesData => "INSERT INTO tiles_data (tile_data_id, tile_data) VALUES (?1, ?2)",
        TableName::TileCache =>
            "INSERT INTO tile_cache (zoom_level, tile_column, tile_row, fetched, expires, etag, tile_data) VALUES (?1, ?2, ?3, ?4, ?5, ?6, ?7)",
        TableName::Metadata => "INSERT INTO metadata (name, value) VALUES (?1, ?2)",
    }
}
