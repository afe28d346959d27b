// The statements that read a file.
ghost use Rattle.std.specs.Prelude.{◌≡◌};
ghost use Rattle.mb_reading.specs.Texts.{master_text, rows_text};

use mb_tables::TableName;

// All tables and views, each by its kind, its name in lower case and the text that makes it.
#[tactic(auto, unfolding(crate::specs::Texts::master_text))]
pub(crate) fn of_master() -> &'static str
    ensures { result.now ≡ master_text }
{
    "SELECT type, lower(name), sql FROM sqlite_master WHERE type IN ('table', 'view')"
}

// All rows of a table, by the names of its columns. Of the metadata each value comes as a text too.
#[tactic(auto, unfolding(crate::specs::Texts::rows_text))]
pub(crate) fn rows_of(table: TableName) -> &'static str
    ensures { result.now ≡ rows_text table }
{
    match table {
        TableName::Tiles => "SELECT zoom_level, tile_column, tile_row, tile_data FROM tiles",
        TableName::TilesWithHash => {
            "SELECT zoom_level, tile_column, tile_row, tile_data, tile_hash FROM tiles_with_hash"
        }
        TableName::Map => "SELECT zoom_level, tile_column, tile_row, tile_id FROM map",
        TableName::Images => "SELECT tile_id, tile_data FROM images",
        TableName::TilesShallow => {
            "SELECT zoom_level, tile_column, tile_row, tile_data_id FROM tiles_shallow"
        }
        TableName::TilesData => "SELECT tile_data_id, tile_data FROM tiles_data",
        TableName::TileCache => {
            "SELECT zoom_level, tile_column, tile_row, fetched, expires, etag, tile_data FROM tile_cache"
        }
        TableName::Metadata => "SELECT name, value, CAST(value AS TEXT) FROM metadata",
    }
}
