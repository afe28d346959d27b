// One thing for each table.
ghost use Rattle.std.specs.Prelude.{◌≡◌};
ghost use Rattle.mb_store.specs.Common.{TableName};
ghost use Rattle.mb_store.specs.ByTable.{at};

use crate::TableName;

// One thing for each table, under the table's name.
#[derive(Debug, Drop)]
pub(crate) struct ByTable<T> {
    pub tiles: T,
    pub tiles_with_hash: T,
    pub map: T,
    pub images: T,
    pub tiles_shallow: T,
    pub tiles_data: T,
    pub tile_cache: T,
    pub metadata: T,
}

impl<T> ByTable<T> {
    // That of a table.
    pub fn of(&self, table: TableName) -> &T
        ensures { result.now ≡ at self.now table }
    {
        match table {
            TableName::Tiles => &self.tiles,
            TableName::TilesWithHash => &self.tiles_with_hash,
            TableName::Map => &self.map,
            TableName::Images => &self.images,
            TableName::TilesShallow => &self.tiles_shallow,
            TableName::TilesData => &self.tiles_data,
            TableName::TileCache => &self.tile_cache,
            TableName::Metadata => &self.metadata,
        }
    }
}
