// The tables that a tile set can have.
ghost use Rattle.std.specs.Prelude.{◌≡◌};
ghost use Rattle.mb_tables.specs.Table.{table_number, table_text, width, key_width};

use std::fmt;

/// The tables that a tile set can have (MBTiles 1.3, and the layouts of the `mbtiles` crate).
#[derive(Clone, Copy, Debug, PartialEq, Eq)]
pub enum TableName {
    /// `tiles`: tiles by place, of a flat set.
    Tiles,
    /// `tiles_with_hash`: tiles by place, each with the digest of its contents.
    TilesWithHash,
    /// `map`: places, each with the id of its contents.
    Map,
    /// `images`: contents by text id.
    Images,
    /// `tiles_shallow`: places, each with the number of its contents.
    TilesShallow,
    /// `tiles_data`: contents by number.
    TilesData,
    /// `tile_cache`: tiles by place, each with the times of a cache.
    TileCache,
    /// `metadata`: texts by name.
    Metadata,
}

impl TableName {
    /// The name of the table in a database.
    pub fn name(self) -> &'static str
        ensures { result.now ≡ table_text self }
    {
        match self {
            TableName::Tiles => "tiles",
            TableName::TilesWithHash => "tiles_with_hash",
            TableName::Map => "map",
            TableName::Images => "images",
            TableName::TilesShallow => "tiles_shallow",
            TableName::TilesData => "tiles_data",
            TableName::TileCache => "tile_cache",
            TableName::Metadata => "metadata",
        }
    }

    /// How many cells a row of the table has.
    pub fn width(self) -> usize
        ensures { result ≡ width self }
    {
        match self {
            TableName::Images | TableName::TilesData | TableName::Metadata => 2,
            TableName::Tiles | TableName::Map | TableName::TilesShallow => 4,
            TableName::TilesWithHash => 5,
            TableName::TileCache => 7,
        }
    }

    /// How many of them, from the front, are its key.
    pub fn key_width(self) -> usize
        ensures { result ≡ key_width self }
    {
        match self {
            TableName::Images | TableName::TilesData | TableName::Metadata => 1,
            _ => 3,
        }
    }

    /// Its place among the tables, from 0.
    pub fn number(self) -> u8
        ensures { result ≡ table_number self }
    {
        self as u8
    }
}

impl fmt::Display for TableName {
    ghost use Rattle.std.specs.Prelude.{Some};
    ghost use Rattle.mb_tables.specs.Table.{table_text};

    ghost output = { λ t. Some (table_text t) };

    fn fmt<W: fmt::Write>(&self, f: &mut fmt::Formatter<W>) -> fmt::Result {
        let name = self.name();
        write!(f, "{name}")
    }
}
